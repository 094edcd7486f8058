// Reading standard input, with an input that ends told apart from one that cannot be read.
ghost use Rattle.std.specs.Io.{ReadsAtMost};

use std::io;
use std::io::Read;

// Fills buf, as far as the input goes, and answers how many bytes have come. Kept beside io::copy, which asks for 8,192 bytes at a time: of a longer message on
// a socket the rest would be lost.
pub(crate) fn fill(input: &mut impl Read, buf: &mut [u8]) -> io::Result<usize>
    ensures { ReadsAtMost result buf.new }
{
    let mut done = 0;
    // a while: each read takes what is there
    while done < buf.len() {
        let more = input.read(&mut buf[done..])?;
        if more == 0 {
            return Ok(done);
        }
        done += more;
    }
    Ok(done)
}
