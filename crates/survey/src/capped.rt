// Products of counts as far as they matter: more than 65,536 marks are too many, whatever their number, and so are more precincts.
ghost use Rattle.std.specs.Prelude.{◌≡◌, ◌*◌};
ghost use Rattle.survey.specs.Capped.{capped};
ghost use Rattle.survey.specs.Passing.{few_marks};

use types::state::State;

// As good as every number above.
const TOO_MANY: u32 = State::MAX_MARKS + 1;

// a · b in 32 bits, or 65,537 where it is more: of two factors above 256 it is, and by 256 or less the other may be cut off before.
pub(crate) fn times(a: u32, b: u32) -> u32
    ensures { result ≡ capped (a * b) }
{
    if a <= 256 {
        return (a * b.min(TOO_MANY)).min(TOO_MANY);
    }
    if b <= 256 {
        return (b * a.min(TOO_MANY)).min(TOO_MANY);
    }
    TOO_MANY
}

// The marks needed (01, 'Strides'), layers · res · components · prec; none where they are more than 65,536.
pub(crate) fn marks(layers: u32, res: u32, components: u32, prec: u32) -> Option<u32>
    ensures { result ≡ few_marks layers res components prec }
{
    let needed = times(layers, times(res, times(components, prec)));
    if State::MAX_MARKS < needed {
        return None;
    }
    Some(needed)
}
