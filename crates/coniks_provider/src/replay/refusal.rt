//! Why a line of a replay is refused, beside what the program refuses.

ghost use Rattle.std.specs.Prelude.{◌≡◌, IfOk};
ghost use Rattle.coniks_provider.specs.Replays.{why_text};

use coniks_programs::printable::Printable;
use coniks_programs::printing::{Member, bad_member, fault, member_text};
use std::alloc::{AllocError, Global};

/// Why a line is refused.
#[derive(Clone, Copy)]
pub(crate) enum Why {
    /// The line is not a JSON object.
    NotJson,
    /// The line may not follow the one before it.
    Order,
    /// A member is missing or not as defined.
    Member(Member),
    /// The snapshot is wrong.
    Differs,
    /// The input ends too early.
    Ended,
}

/// Returns the object that is printed for a refused line.
pub(crate) fn why_object(alloc: Global, why: Why) -> Result<Printable, AllocError>
    ensures { IfOk result (λ object. object.text.items ≡ why_text why) }
{
    match why {
        Why::NotJson => fault(alloc, "Json"),
        Why::Order => fault(alloc, "Order"),
        Why::Member(member) => bad_member(alloc, member_text(member)),
        Why::Differs => fault(alloc, "Differs"),
        Why::Ended => fault(alloc, "Ended"),
    }
}
