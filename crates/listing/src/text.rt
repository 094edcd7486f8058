// What is printed, as text. Each function puts its part after what is there.
ghost use Rattle.std.specs.Prelude.{◌+◌, ◌*◌, ◌≤◌, ◌<◌, ◌≡◌, [], ◌∷◌, ◌++◌};
ghost use Rattle.arrayvec.specs.ArrayString.{array_string_len};
ghost use Rattle.words.specs.Laws.{Bytes};
ghost use Rattle.packets.specs.Text.{decimal, refused_line, text_of};
ghost use Rattle.listing.specs.Lines.{line_at, lines_at};

use arrayvec::ArrayString;
use itoa::Buffer;
use words::word_at;

// A line of at most 44 bytes for each of 2,048 marks, and 11 for the count.
pub(crate) type Text = ArrayString<90123>;

// A number in decimal, which has at most ten digits, and a character after it.
fn put_number(text: &mut Text, n: u32, last: char)
    requires room { array_string_len text.old + 11 ≤ 90123 }
    requires one_byte { last < 128 }
    ensures puts { text.new.bytes ≡ text.old.bytes ++ (decimal n ++ last ∷ []) }
    ensures near { array_string_len text.new ≤ array_string_len text.old + 11 }
{
    let mut digits = Buffer::new();
    text.push_str(digits.format(n));
    text.push(last);
}

// The line of the packet whose record starts at place from of the output.
fn put_packet(text: &mut Text, output: &[u8], from: usize)
    requires room { array_string_len text.old + 44 ≤ 90123 }
    requires from_bound { from ≤ 1048576 }
    ensures puts { text.new.bytes ≡ text.old.bytes ++ line_at output.now from }
    ensures near { array_string_len text.new ≤ array_string_len text.old + 44 }
{
    put_number(text, word_at(output, from), ' ');
    put_number(text, word_at(output, from + 4), ' ');
    put_number(text, word_at(output, from + 8), ' ');
    put_number(text, word_at(output, from + 12), '\n');
}

// A line for each of the output's records, then the count.
fn put_packets(text: &mut Text, output: &[u8], count: u32)
    requires empty { text.old.bytes ≡ [] }
    requires few { count ≤ 2048 }
    ensures puts { text.new.bytes ≡ lines_at output.now 0 count ++ (decimal count ++ 10 ∷ []) }
    ensures bytes { Bytes output.now }
{
    for i in 0..count {
        put_packet(text, output, 16 * i as usize);
    }
    put_number(text, count, '\n');
}

// The line of a refusal, `refused -1` for 1.
fn put_refusal(text: &mut Text, n: u32)
    requires { text.old.bytes ≡ [] }
    ensures { text.new.bytes ≡ refused_line n }
{
    text.push_str("refused -");
    put_number(text, n, '\n');
}

// What is printed for a sheet: 01's text. Lent are 01's 2,048 marks, with table and output large enough for any sheet that needs no more: 16 bytes for each of
// 16 times 33 resolutions, and 16 for each mark.
pub(crate) fn listing(sheet: &[u8], text: &mut Text)
    ensures { text.new.bytes ≡ text_of sheet.now }
{
    text.clear();
    let mut table = [0u8; 8448];
    let mut marks = [0u8; 2048];
    let mut output = [0u8; 32768];
    match calls::whole::whole_run(sheet, &mut table, &mut marks, &mut output) {
        Ok(count) => put_packets(text, &output, count),
        Err(refusal) => put_refusal(text, i32::from(refusal).unsigned_abs()),
    }
}
