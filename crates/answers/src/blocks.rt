// The calls of the encoders and of the block decoders. A lent buffer is of the length that the line says, and is
// printed whole.
use call_lines::fields::{
    LONG, SHORT, byte, field, fill, fill_floats, fill_signed, lent, number, room,
};
use call_lines::print::{print_answer, print_bytes, print_number};
use call_lines::shapes::COMPONENTS;
use f32_answers::word_number;
use refusal::count_number;
use signed_readings::viterbi_decode_signed_with;
use std::io;
use std::io::Write;

fn print_both<W: Write>(to: &mut W, answer: u64, out: &[u8], scratch: &[u8]) -> io::Result<()> {
    print_answer(to, answer, out)?;
    print_bytes(to, scratch)
}

// `e CODE RATE INFO ROOM`: the info bytes, and the output's length. Prints the answer and the output.
pub fn punctured<W: Write>(to: &mut W, line: &[u8]) -> io::Result<()> {
    let code = byte(field(line, 1));
    let rate = byte(field(line, 2));
    let mut info: [u8; SHORT] = lent();
    let n = fill(field(line, 3), &mut info);
    let mut out: [u8; SHORT] = lent();
    let out = &mut out[..room(field(line, 4), SHORT)];
    let answer = encoder::conv_encode_punctured_with(code, &info[..n], rate, out);
    print_answer(to, count_number(answer), out)
}

// `p BITS ROOM`: the input bits, and the output's length. Prints the same.
pub fn plain<W: Write>(to: &mut W, line: &[u8]) -> io::Result<()> {
    let mut bits: [u8; SHORT] = lent();
    let n = fill(field(line, 1), &mut bits);
    let mut out: [u8; SHORT] = lent();
    let out = &mut out[..room(field(line, 2), SHORT)];
    let answer = encoder::conv_encode(&bits[..n], out);
    print_answer(to, count_number(answer), out)
}

// `l CODE RATE COUNT`: the info count. Prints the answer.
pub fn length<W: Write>(to: &mut W, line: &[u8]) -> io::Result<()> {
    let code = byte(field(line, 1));
    let rate = byte(field(line, 2));
    let info = number(field(line, 3)) as usize;
    let answer = encoder::punctured_coded_len_with(code, info, rate);
    print_number(to, count_number(answer), 16)
}

// `b CODE RATE COUNT READINGS ROOM SCRATCH`: the info count, the readings' bytes, and the lengths of the output and
// of the scratch. Prints the answer, the output and the scratch.
pub fn readings<W: Write>(to: &mut W, line: &[u8]) -> io::Result<()> {
    let code = byte(field(line, 1));
    let rate = byte(field(line, 2));
    let info = number(field(line, 3)) as usize;
    let mut bytes: [u8; LONG] = lent();
    let n = fill(field(line, 4), &mut bytes);
    let mut out: [u8; SHORT] = lent();
    let out = &mut out[..room(field(line, 5), SHORT)];
    let mut scratch: [u8; LONG] = lent();
    let scratch = &mut scratch[..room(field(line, 6), LONG)];
    let answer = readings::viterbi_decode_bytes(code, &bytes[..n], info, rate, out, scratch);
    print_both(to, word_number(answer), out, scratch)
}

// `i CODE RATE COUNT READINGS ROOM SCRATCH`: the same of readings that are signed bytes.
pub fn signed<W: Write>(to: &mut W, line: &[u8]) -> io::Result<()> {
    let code = byte(field(line, 1));
    let rate = byte(field(line, 2));
    let info = number(field(line, 3)) as usize;
    let mut readings = [0; SHORT];
    let n = fill_signed(field(line, 4), &mut readings);
    let mut out: [u8; SHORT] = lent();
    let out = &mut out[..room(field(line, 5), SHORT)];
    let mut scratch: [u8; LONG] = lent();
    let scratch = &mut scratch[..room(field(line, 6), LONG)];
    let answer = viterbi_decode_signed_with(code, &readings[..n], info, rate, out, scratch);
    print_both(to, signed_answers::word_number(answer), out, scratch)
}

// `s COMPONENTS ROOM SCRATCH`: the components' bytes, and the lengths of the output and of the scratch. Prints the
// same.
pub fn soft<W: Write>(to: &mut W, line: &[u8]) -> io::Result<()> {
    let mut soft = [0.0; COMPONENTS];
    let n = fill_floats(field(line, 1), &mut soft);
    let mut out: [u8; SHORT] = lent();
    let out = &mut out[..room(field(line, 2), SHORT)];
    let mut scratch: [u8; LONG] = lent();
    let scratch = &mut scratch[..room(field(line, 3), LONG)];
    let answer = symbols::viterbi_decode(&soft[..n], out, scratch);
    print_both(to, count_number(answer), out, scratch)
}

// `h BITS ROOM SCRATCH`: the same of hard bits.
pub fn hard<W: Write>(to: &mut W, line: &[u8]) -> io::Result<()> {
    let mut bits: [u8; SHORT] = lent();
    let n = fill(field(line, 1), &mut bits);
    let mut out: [u8; SHORT] = lent();
    let out = &mut out[..room(field(line, 2), SHORT)];
    let mut scratch: [u8; LONG] = lent();
    let scratch = &mut scratch[..room(field(line, 3), LONG)];
    let answer = symbols::viterbi_decode_hard(&bits[..n], out, scratch);
    print_both(to, count_number(answer), out, scratch)
}
