// The table that setup writes (01, 'The table is lent bytes').
ghost use Rattle.std.specs.Prelude.{◌≡◌, ◌*◌, ◌≤◌, length, take};
ghost use Rattle.words.specs.Words.{words_bytes, over};

use types::table::Entry;
use words::{Four, put_four};

// Lays the words of n entries over a lent table that has room for them.
pub(crate) fn write(words: &[u32], n: usize, table: &mut [u8])
    requires { (4 * n ≤ length words.now) × (16 * n ≤ length table.old) × (n ≤ 528) }
    ensures { table.new ≡ over (words_bytes (take (4 * n) words.now)) table.old }
{
    for i in 0..n {
        let w = 4 * i;
        put_four(
            table,
            Entry::BYTES * i,
            Four {
                a: words[w],
                b: words[w + 1],
                c: words[w + 2],
                d: words[w + 3],
            },
        );
    }
}
