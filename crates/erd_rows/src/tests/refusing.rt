//! Refused memory requests. The library that `tests/program/refusals.sh` preloads refuses them. Without it, no request is
//! refused, and each call is made twice.
use crate::tests::answers::Answer;
use std::alloc::Global;
use std::test::Fail;

// No machine grants requests of these sizes. The preloaded library takes them as commands.
const REFUSE: usize = 1 << 62;

const ASK: usize = 1 << 61;

// No call here makes this many requests.
const MANY: usize = 20_000;

// Asks that the request with this number, counted from 1 from here on, is refused.
fn refuse(alloc: Global, number: usize) {
    let _ = Vec::<u8>::with_capacity(alloc, REFUSE.saturating_add(number));
}

// Returns whether it was refused. From here on, no request is refused.
fn was_refused(alloc: Global) -> bool {
    Vec::<u8>::with_capacity(alloc, ASK).is_ok()
}

// Refuses each memory request of a call in turn, until the call makes fewer requests. With a refused request, the call must
// be out of memory or give the right result. Each call is repeated without a refusal, and must give the right result.
pub fn each_refused<F: Fn(Global) -> Answer>(alloc: Global, name: &str, call: F) -> Result<(), Fail>
    requires { F.IsAlwaysCallable call }
{
    for number in 1..MANY {
        refuse(alloc, number);
        let first = call(alloc);
        let is_refused = was_refused(alloc);
        let wants_memory = is_refused && first == Answer::WantsMemory;
        if !wants_memory && first != Answer::Right {
            let text = format!(in alloc; "{name}: at request {number}")?;
            return Err(Fail::from(text));
        }
        if call(alloc) != Answer::Right {
            let text = format!(in alloc; "{name}: after request {number}")?;
            return Err(Fail::from(text));
        }
        if !is_refused {
            return Ok(());
        }
    }
    Err(Fail::from("no end"))
}
