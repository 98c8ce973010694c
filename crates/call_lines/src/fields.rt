// A line's fields, and the numbers and bytes that they spell in lower-case hex.
//
// Bytes are two digits each, or `-` for none. `(PIECE*COUNT)` among them is a piece again and again, to COUNT bytes.
ghost use Rattle.std.specs.Prelude.{◌≡◌, ◌≤◌, ◌<◌, length, min, IfSome};

// The most bytes of info, of bits and of an output: 16,384 info bits make 32,780 coded ones.
pub const SHORT: usize = 32800;

// The most bytes of readings, of components and of survivors: 4,096 info bits leave 262,528 at K7, 16,384 leave
// 262,208 at K5.
pub const LONG: usize = 262528;

// What every lent byte is before a call.
const BEFORE: u8 = 0xA5;

// Room for bytes. The caller knows the length alone, which is proved sooner than with the bytes in sight.
pub fn lent<const ROOM: usize>() -> [u8; ROOM]
    ensures { length result ≡ ROOM }
{
    [BEFORE; ROOM]
}

// The field at a place, from 0 on; empty where there are fewer.
pub fn field(line: &[u8], place: usize) -> &[u8] {
    line.split(|b| *b == b' ').nth(place).unwrap_or(&[])
}

// The value of a hex digit in lower case: `char::to_digit` takes those in upper case too.
fn digit(c: u8) -> Option<u8>
    ensures { IfSome result (λ d. d < 16) }
{
    match c {
        b'0'..=b'9' => Some(c - b'0'),
        b'a'..=b'f' => Some(c - b'a' + 10),
        _ => None,
    }
}

// The number that one to `most` digits spell, and no more than sixteen.
pub fn parse(text: &[u8], most: usize) -> Option<u64>
    ensures { IfSome result (λ n. (0 < length text.now) × (length text.now ≤ min most 16)) }
{
    if text.is_empty() || most.min(16) < text.len() {
        return None;
    }
    text.iter().try_fold(0, |value: u64, c| Some(value << 4 | u64::from(digit(*c)?)))
}

// The number that a text's last sixteen digits spell. What is no digit counts as a 0.
pub fn number(text: &[u8]) -> u64 {
    text.iter().fold(
        0,
        |value: u64, c| value << 4 | u64::from(digit(*c).unwrap_or(0)),
    )
}

pub fn byte(text: &[u8]) -> u8 {
    (number(text) % 256) as u8
}

// The number that a text spells, and at most `most`.
pub fn room(text: &[u8], most: usize) -> usize
    ensures { result ≤ most }
{
    (number(text) as usize).min(most)
}

// What stands before the first such byte, and what behind it.
fn split_once(text: &[u8], at: u8) -> Option<(&[u8], &[u8])> {
    let place = text.iter().position(|b| *b == at)?;
    Some((&text[..place], &text[place + 1..]))
}

// Puts bytes of two digits each into a room, from `start` on and as far as it goes, and answers where they end. By
// place: digits behind the room are read too, where a zip with it would stop. What stands before a pair that is none,
// or within LONG, is put all the same.
fn read_pairs(text: &[u8], into: &mut [u8], start: usize) -> Option<usize>
    ensures { IfSome result (λ end. start ≤ end) }
{
    let end = start.checked_add(text.len() / 2)?;
    for (place, pair) in (start..end.min(LONG)).zip(text.chunks_exact(2)) {
        let [high, low] = pair else {
            return None;
        };
        let byte = 16 * digit(*high)? + digit(*low)?;
        if place < into.len() {
            into[place] = byte;
        }
    }
    (text.len() % 2 == 0 && end <= LONG).then_some(end)
}

// Repeats the piece from `start` up to `end` until it makes so many bytes, and answers where they end.
fn repeat(into: &mut [u8], start: usize, end: usize, count: usize) -> Option<usize>
    requires { start ≤ end }
{
    let last = start.checked_add(count)?;
    if start == end || last < end || LONG < last {
        return None;
    }
    // By number: each byte is read from what an earlier turn wrote, which a copy of a range does not do.
    for i in end..last.min(into.len()) {
        into[i] = into[i - (end - start)];
    }
    Some(last)
}

// Puts the bytes that a text spells at the front of a room, as many as it has room for, and answers how many there are,
// which a part tells as it is read.
fn read_bytes(text: &[u8], into: &mut [u8]) -> Option<usize> {
    match text {
        [] => return None,
        [b'-'] => return Some(0),
        _ => {}
    }
    let mut parts = text.split(|b| *b == b'(');
    let mut count = read_pairs(parts.next()?, into, 0)?;
    for part in parts {
        let start = count;
        // A piece is put before it is known to be closed: `fill` puts what can be read.
        let end = read_pairs(part.split(|b| *b == b'*').next()?, into, start)?;
        let (_, behind) = split_once(part, b'*')?;
        let (digits, plain) = split_once(behind, b')')?;
        let last = repeat(into, start, end, parse(digits, 8)? as usize)?;
        count = read_pairs(plain, into, last)?;
    }
    Some(count)
}

// How many bytes a text spells.
pub fn size(text: &[u8]) -> Option<usize> {
    read_bytes(text, &mut [])
}

// Puts the bytes that a text spells at the front of a room, and answers how many, as far as the room goes. Of a text of
// two bytes or more that spells none, what can be read is put, and it counts as one byte more than any text spells.
pub fn fill(text: &[u8], into: &mut [u8]) -> usize
    ensures { result ≤ length into.new }
{
    if text.len() < 2 {
        return 0;
    }
    read_bytes(text, into).unwrap_or(LONG + 1).min(into.len())
}

// The same of the f32s that the bytes make, four bytes each.
pub fn fill_floats(text: &[u8], into: &mut [f32]) -> usize
    ensures { result ≤ length into.new }
{
    let mut bytes: [u8; LONG] = lent();
    let n = fill(text, &mut bytes);
    f32s::from_all_bytes(&bytes[..n], into).min(into.len())
}

// The same of the signed bytes that the bytes make.
pub fn fill_signed(text: &[u8], into: &mut [i8]) -> usize
    ensures { result ≤ length into.new }
{
    let mut bytes: [u8; SHORT] = lent();
    let n = fill(text, &mut bytes);
    for (value, byte) in into.iter_mut().zip(&bytes[..n]) {
        *value = byte.cast_signed();
    }
    n.min(into.len())
}
