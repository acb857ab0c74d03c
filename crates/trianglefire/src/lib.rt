// The calls for C. Numbers come first, then slices, each a pointer and a count of its elements; the reply number is returned. No call has a
// `requires`, for nothing checks one from C: each contract gives, for every input, the reply and every lent word by the call's definition in
// words. All that an export does is to hand on: the numbers of the geometry as one, and every slice as it is.
#![tactic(auto)]

ghost use Rattle.scope.specs.Requests.{replied};
ghost use Rattle.scope.specs.Calls.{run_replied};
ghost use Rattle.scope.specs.Boundary.{tf_format, tf_check, tf_read, tf_write, tf_run};
ghost use Rattle.scope.specs.Holding.{Gives};
ghost use Rattle.settings.specs.Kept.{ReadMade, WriteMade};
ghost use Rattle.lent.specs.Model.{words};
ghost use Rattle.trianglefire.specs.Numbers.{geometry_of};

use lent::Geometry;

// Words of the spare that a page has, of the cache that an entry has, and of the small record: for those who lend arrays.
pub const SPARE_WORDS: usize = lent::SPARE_WORDS;

pub const ENTRY_WORDS: usize = lent::ENTRY_WORDS;

pub const RECORD_WORDS: usize = lent::RECORD_WORDS;

#[unsafe(no_mangle)]
pub extern "C" fn tf_format(
    p: u32,
    w: u32,
    d: u32,
    t: u32,
    l: u32,
    c: u32,
    chip: &mut [u32],
    spare: &mut [u32],
    directory: &mut [u32],
    cache: &mut [u32],
    record: &mut [u32],
    counts: &mut [u32],
) -> u32
    ensures { Gives
        (tf_format (geometry_of p w d t l c) (words chip.old spare.old directory.old
        cache.old «record».old counts.old))
        result
        (words chip.new spare.new directory.new
        cache.new «record».new counts.new) }
{
    wordcalls::format(
        Geometry { p, w, d, t, l, c },
        chip,
        spare,
        directory,
        cache,
        record,
        counts,
    )
}

#[unsafe(no_mangle)]
pub extern "C" fn tf_check(
    p: u32,
    w: u32,
    d: u32,
    t: u32,
    l: u32,
    c: u32,
    chip: &[u32],
    spare: &[u32],
    directory: &[u32],
    cache: &[u32],
    record: &[u32],
    counts: &mut [u32],
) -> u32
    ensures { Gives
        (tf_check (geometry_of p w d t l c) (words chip.now spare.now directory.now
        cache.now «record».now counts.old))
        result
        (words chip.now spare.now directory.now
        cache.now «record».now counts.new) }
{
    wordcalls::check(
        Geometry { p, w, d, t, l, c },
        chip,
        spare,
        directory,
        cache,
        record,
        counts,
    )
}

#[unsafe(no_mangle)]
pub extern "C" fn tf_read(
    p: u32,
    w: u32,
    d: u32,
    t: u32,
    l: u32,
    c: u32,
    page: u32,
    chip: &mut [u32],
    spare: &mut [u32],
    directory: &mut [u32],
    cache: &mut [u32],
    record: &mut [u32],
    buffer: &mut [u32],
    counts: &mut [u32],
) -> u32
    ensures { Gives
        (tf_read (geometry_of p w d t l c) page (words chip.old spare.old directory.old
        cache.old «record».old counts.old) buffer.old)
        (replied buffer.new result)
        (words chip.new spare.new directory.new
        cache.new «record».new counts.new) }
{
    wordpage::read(
        Geometry { p, w, d, t, l, c },
        page,
        chip,
        spare,
        directory,
        cache,
        record,
        buffer,
        counts,
    )
}

#[unsafe(no_mangle)]
pub extern "C" fn tf_write(
    p: u32,
    w: u32,
    d: u32,
    t: u32,
    l: u32,
    c: u32,
    page: u32,
    chip: &mut [u32],
    spare: &mut [u32],
    directory: &mut [u32],
    cache: &mut [u32],
    record: &mut [u32],
    buffer: &[u32],
    counts: &mut [u32],
) -> u32
    ensures { Gives
        (tf_write (geometry_of p w d t l c) page (words chip.old spare.old directory.old
        cache.old «record».old counts.old) buffer.now)
        (replied buffer.now result)
        (words chip.new spare.new directory.new
        cache.new «record».new counts.new) }
{
    wordpage::write(
        Geometry { p, w, d, t, l, c },
        page,
        chip,
        spare,
        directory,
        cache,
        record,
        buffer,
        counts,
    )
}

#[unsafe(no_mangle)]
pub extern "C" fn tf_run(
    p: u32,
    w: u32,
    d: u32,
    t: u32,
    l: u32,
    c: u32,
    chip: &mut [u32],
    spare: &mut [u32],
    directory: &mut [u32],
    cache: &mut [u32],
    record: &mut [u32],
    requests: &[u32],
    data: &mut [u32],
    answers: &mut [u32],
    counts: &mut [u32],
) -> u32
    ensures { Gives
        (tf_run (geometry_of p w d t l c) (words chip.old spare.old directory.old
        cache.old «record».old counts.old)
        requests.now «data».old answers.old)
        (run_replied «data».new answers.new result)
        (words chip.new spare.new directory.new
        cache.new «record».new counts.new) }
{
    wordrun::run(
        Geometry { p, w, d, t, l, c },
        chip,
        spare,
        directory,
        cache,
        record,
        requests,
        data,
        answers,
        counts,
    )
}

#[unsafe(no_mangle)]
pub extern "C" fn tf_settings_read(bytes: &[u8], numbers: &mut [u32]) -> u32
    ensures { ReadMade bytes.now numbers.old result numbers.new }
{
    fields::words::read_settings(bytes, numbers)
}

#[unsafe(no_mangle)]
pub extern "C" fn tf_settings_write(
    p: u32,
    w: u32,
    d: u32,
    t: u32,
    l: u32,
    c: u32,
    place: &mut [u8],
) -> u32
    ensures { WriteMade (geometry_of p w d t l c) place.old result place.new }
{
    fields::words::write_settings(Geometry { p, w, d, t, l, c }, place)
}
