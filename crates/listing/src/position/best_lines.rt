// The lines of the best grade at a position, kept behind the lines of earlier positions.
ghost use Rattle.std.specs.Prelude.{◌+◌, ◌<◌};
ghost use Rattle.lent.specs.Lists.{one};
ghost use Rattle.listing.specs.position.Bests.{Meets};

use crate::position::Best;
use listing_rules::Line;
use listing_rules::rows::put_line;

// Takes in one line more: lines of a lower grade give way to it, or it gives way to lines of a higher
// grade; among its equals it is put last.
pub fn take_in(m: &mut [u64], from: usize, b: Best, line: Line) -> Best
    requires { from + b.count < 18446744073709551615 }
    ensures { Meets from (one line) m.old b m.new result }
{
    if line.grade < b.grade {
        return b;
    }
    if b.grade < line.grade {
        put_line(m, from, line);
        return Best {
            count: 1,
            grade: line.grade,
        };
    }
    put_line(m, from + b.count, line);
    Best {
        count: b.count + 1,
        grade: b.grade,
    }
}
