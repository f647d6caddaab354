// What a call answers: that it is accepted, or its number and whether what was handed in is as before.
use observations::records::Same;
use spins::Refusal;
use std::io;

// What stands beside a refusal where the record handed in is the caller's own: the record is as before, and where the answer has a power of i,
// this is read as 0.
pub(crate) const STATE: &str = "; state as before";

pub(crate) const POWER_AND_STATE: &str = "; power 0; state as before";

// The same where the answer is of another type than what was handed in: the empty record is read.
pub(crate) const EMPTY: &str = "; empty beside it";

pub(crate) const POWER_AND_EMPTY: &str = "; power 0; empty beside it";

// An answer, and what stands beside it where it is a refusal.
pub(crate) fn told<T: Drop>(
    rt: &impl Print,
    answer: Result<T, Refusal>,
    beside: &str,
) -> io::Result<()> {
    match answer {
        Ok(_) => println!(rt; "accepted"),
        Err(why) => println!(rt; "refused {why}{beside}"),
    }
}

// The answer of a call on a record, which after the call is held to what it was before.
pub(crate) fn called<S: Same, T: Drop, F: FnOnce(&mut S) -> Result<T, Refusal>>(
    rt: &impl Print,
    before: S,
    call: F,
) -> io::Result<()>
    requires { F.IsAlwaysCallable call }
{
    let mut after = before;
    let answer = call(&mut after);
    let same = after.same(true, &before);
    told(rt, answer, if same { STATE } else { "; state changed" })
}
