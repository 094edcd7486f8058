// The words of the table that a survey keeps, as far as there is room for them.
ghost use Rattle.std.specs.Prelude.{◌≡◌, ◌<◌, set};
ghost use Rattle.survey.specs.Put.{put_numbers};
ghost use Rattle.survey.specs.Kept.{words_of};

use types::table::Entry;

// The number at place i; nothing where there is no such place.
fn put(kept: &mut [u32], i: usize, n: u32)
    ensures { kept.new ≡ set kept.old i n }
{
    if i < kept.len() {
        kept[i] = n;
    }
}

// The four words of an entry from place to on (01, 'The table is lent bytes').
pub(crate) fn keep(kept: &mut [u32], to: usize, entry: Entry)
    requires { to < 65536 }
    ensures { kept.new ≡ put_numbers kept.old to (words_of entry) }
{
    put(kept, to, entry.pdx);
    put(kept, to + 1, entry.pdy);
    put(kept, to + 2, entry.width);
    put(kept, to + 3, entry.height);
}
