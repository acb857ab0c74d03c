// The archive's exports for C, under the names and with the contracts of crate trianglefire's calls, which each hands on to as it is: a crate is
// a library, as trianglefire is, or a static library, as this. Nothing but what stands here is exported.
#![tactic(auto)]

ghost use Rattle.scope.specs.Requests.{replied};
ghost use Rattle.scope.specs.Calls.{run_replied};
ghost use Rattle.scope.specs.Boundary.{tf_format, tf_check, tf_read, tf_write, tf_run};
ghost use Rattle.scope.specs.Holding.{Gives};
ghost use Rattle.settings.specs.Kept.{ReadMade, WriteMade};
ghost use Rattle.lent.specs.Model.{words};
ghost use Rattle.trianglefire.specs.Numbers.{geometry_of};

#[unsafe(no_mangle)]
pub extern "C" fn tf_format(
    p: u32,
    w: u32,
    d: u32,
    t: u32,
    l: u32,
    c: u32,
    chip: &mut [u32],
    spare: &mut [u32],
    directory: &mut [u32],
    cache: &mut [u32],
    record: &mut [u32],
    counts: &mut [u32],
) -> u32
    ensures { Gives
        (tf_format (geometry_of p w d t l c) (words chip.old spare.old directory.old
        cache.old «record».old counts.old))
        result
        (words chip.new spare.new directory.new
        cache.new «record».new counts.new) }
{
    trianglefire::tf_format(
        p, w, d, t, l, c, chip, spare, directory, cache, record, counts,
    )
}

#[unsafe(no_mangle)]
pub extern "C" fn tf_check(
    p: u32,
    w: u32,
    d: u32,
    t: u32,
    l: u32,
    c: u32,
    chip: &[u32],
    spare: &[u32],
    directory: &[u32],
    cache: &[u32],
    record: &[u32],
    counts: &mut [u32],
) -> u32
    ensures { Gives
        (tf_check (geometry_of p w d t l c) (words chip.now spare.now directory.now
        cache.now «record».now counts.old))
        result
        (words chip.now spare.now directory.now
        cache.now «record».now counts.new) }
{
    trianglefire::tf_check(
        p, w, d, t, l, c, chip, spare, directory, cache, record, counts,
    )
}

#[unsafe(no_mangle)]
pub extern "C" fn tf_read(
    p: u32,
    w: u32,
    d: u32,
    t: u32,
    l: u32,
    c: u32,
    page: u32,
    chip: &mut [u32],
    spare: &mut [u32],
    directory: &mut [u32],
    cache: &mut [u32],
    record: &mut [u32],
    buffer: &mut [u32],
    counts: &mut [u32],
) -> u32
    ensures { Gives
        (tf_read (geometry_of p w d t l c) page (words chip.old spare.old directory.old
        cache.old «record».old counts.old) buffer.old)
        (replied buffer.new result)
        (words chip.new spare.new directory.new
        cache.new «record».new counts.new) }
{
    trianglefire::tf_read(
        p, w, d, t, l, c, page, chip, spare, directory, cache, record, buffer, counts,
    )
}

#[unsafe(no_mangle)]
pub extern "C" fn tf_write(
    p: u32,
    w: u32,
    d: u32,
    t: u32,
    l: u32,
    c: u32,
    page: u32,
    chip: &mut [u32],
    spare: &mut [u32],
    directory: &mut [u32],
    cache: &mut [u32],
    record: &mut [u32],
    buffer: &[u32],
    counts: &mut [u32],
) -> u32
    ensures { Gives
        (tf_write (geometry_of p w d t l c) page (words chip.old spare.old directory.old
        cache.old «record».old counts.old) buffer.now)
        (replied buffer.now result)
        (words chip.new spare.new directory.new
        cache.new «record».new counts.new) }
{
    trianglefire::tf_write(
        p, w, d, t, l, c, page, chip, spare, directory, cache, record, buffer, counts,
    )
}

#[unsafe(no_mangle)]
pub extern "C" fn tf_run(
    p: u32,
    w: u32,
    d: u32,
    t: u32,
    l: u32,
    c: u32,
    chip: &mut [u32],
    spare: &mut [u32],
    directory: &mut [u32],
    cache: &mut [u32],
    record: &mut [u32],
    requests: &[u32],
    data: &mut [u32],
    answers: &mut [u32],
    counts: &mut [u32],
) -> u32
    ensures { Gives
        (tf_run (geometry_of p w d t l c) (words chip.old spare.old directory.old
        cache.old «record».old counts.old)
        requests.now «data».old answers.old)
        (run_replied «data».new answers.new result)
        (words chip.new spare.new directory.new
        cache.new «record».new counts.new) }
{
    trianglefire::tf_run(
        p, w, d, t, l, c, chip, spare, directory, cache, record, requests, data, answers, counts,
    )
}

#[unsafe(no_mangle)]
pub extern "C" fn tf_settings_read(bytes: &[u8], numbers: &mut [u32]) -> u32
    ensures { ReadMade bytes.now numbers.old result numbers.new }
{
    trianglefire::tf_settings_read(bytes, numbers)
}

#[unsafe(no_mangle)]
pub extern "C" fn tf_settings_write(
    p: u32,
    w: u32,
    d: u32,
    t: u32,
    l: u32,
    c: u32,
    place: &mut [u8],
) -> u32
    ensures { WriteMade (geometry_of p w d t l c) place.old result place.new }
{
    trianglefire::tf_settings_write(p, w, d, t, l, c, place)
}
