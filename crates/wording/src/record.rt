// The small record as words. Any number of words may come: what is not there reads as 0 and is not stored, and the call refuses.
ghost use Rattle.std.specs.Prelude.{◌≡◌, get_or, set};
ghost use Rattle.std.proofs.lemmas.List.Edits.{sets};
ghost use Rattle.lent.specs.Model.{small};
ghost use Rattle.scope.specs.SmallRecord.{record_of, words_from};

use lent::Record;

fn word(s: &[u32], i: usize) -> u32
    ensures { result ≡ get_or s.now i 0 }
{
    if i < s.len() { s[i] } else { 0 }
}

fn set_word(s: &mut [u32], i: usize, x: u32)
    ensures { s.new ≡ set s.old i x }
{
    if i < s.len() {
        s[i] = x;
    }
}

pub fn load(record: &[u32]) -> Record
    ensures { small result ≡ record_of «record».now }
{
    Record {
        open_data: word(record, 0),
        data_offset: word(record, 1),
        open_translation: word(record, 2),
        translation_offset: word(record, 3),
        used: word(record, 4),
        protected: word(record, 5),
    }
}

pub fn store(record: &mut [u32], rec: Record)
    ensures { «record».new ≡ sets «record».old 0 (words_from (small rec)) }
{
    set_word(record, 0, rec.open_data);
    set_word(record, 1, rec.data_offset);
    set_word(record, 2, rec.open_translation);
    set_word(record, 3, rec.translation_offset);
    set_word(record, 4, rec.used);
    set_word(record, 5, rec.protected);
}
