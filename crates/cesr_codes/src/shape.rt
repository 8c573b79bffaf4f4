//! The shape of a date-time.
ghost use Rattle.std.specs.Prelude.{◌≡◌, ◌==◌, ◌<◌, map, IfSome};
ghost use Rattle.std.specs.List.{list_any};
ghost use Rattle.cesr_codes.specs.Dates.{allowed, first_misfit, is_date_time, plain, written};

// With `0` for any decimal digit and `+` for either sign.
const SHAPE: [u8; 32] = *b"0000-00-00T00:00:00.000000+00:00";

/// The first place whose written character may not stand there.
pub(crate) fn first_misfit(text: &[u8]) -> Option<usize>
    ensures first { result ≡ first_misfit (λ place. map written (allowed place)) text.now }
    ensures few { IfSome result (λ place. place < 32) }
{
    SHAPE
        .iter()
        .zip(text)
        .position(|(place, c)| !may_be_written(*place, *c))
}

/// Whether these are a date-time.
pub(crate) fn is_date_time(text: &[u8]) -> bool
    ensures { result ≡ is_date_time text.now }
{
    text.len() == 32 && first_wrong(text).is_none()
}

// The first place whose character may not stand there.
fn first_wrong(text: &[u8]) -> Option<usize>
    ensures { result ≡ first_misfit allowed text.now }
{
    SHAPE
        .iter()
        .zip(text)
        .position(|(place, c)| !may_stand(*place, *c))
}

// Whether the character may stand at this place of the shape.
fn may_stand(place: u8, c: u8) -> bool
    ensures { result ≡ list_any (λ x. x == c) (allowed place) }
{
    match place {
        b'0' => c.is_ascii_digit(),
        b'+' => matches!(c, b'+' | b'-'),
        _ => c == place,
    }
}

// Whether it may stand there as it is written in a primitive.
fn may_be_written(place: u8, c: u8) -> bool
    ensures { result ≡ list_any (λ x. x == c) (map written (allowed place)) }
{
    match place {
        b'0' => c.is_ascii_digit(),
        b'+' => matches!(c, b'p' | b'-'),
        _ => c == written(place),
    }
}

// The character as it is written in a primitive.
fn written(c: u8) -> u8
    ensures { result ≡ written c }
{
    match c {
        b':' => b'c',
        b'.' => b'd',
        b'+' => b'p',
        _ => c,
    }
}

/// Puts the characters as they are written in a primitive.
pub(crate) fn write_all(text: &mut [u8])
    ensures { text.new ≡ map written text.old }
{
    for c in text.iter_mut() {
        *c = written(*c);
    }
}

/// Puts the characters that the written ones stand for.
pub(crate) fn read_all(text: &mut [u8])
    ensures { text.new ≡ map plain text.old }
{
    for c in text.iter_mut() {
        *c = plain(*c);
    }
}

// The character that a written one stands for.
fn plain(c: u8) -> u8
    ensures { result ≡ plain c }
{
    match c {
        b'c' => b':',
        b'd' => b'.',
        b'p' => b'+',
        _ => c,
    }
}
