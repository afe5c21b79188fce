//! A worker that waits takes the first message that some clause matches, goes on late, or waits on.

ghost use Rattle.store.specs.Heap.{stored, Grows};
ghost use Rattle.machine.specs.Receiving.{TakeSim};

use crate::state::{Control, Site};
use matching::{Chosen, Clauses, Mailbox, Taken};
use store::{Cells, Full, Heap, Slot};

/// What a worker that waits comes to, and its mailbox then.
#[derive(Clone, Copy)]
pub struct Waited {
    pub next: Next,
    pub mailbox: Mailbox,
}

/// What a worker that waits does next.
#[derive(Clone, Copy, Debug, PartialEq, Eq)]
pub enum Next {
    /// It took a message, and goes on with this control; the mailbox holds the others.
    Took(Control),
    /// Its time has come, and it goes on with this control; the mailbox holds the same messages.
    Late(Control),
    /// It waits on; the mailbox holds the same messages, and all of them are seen.
    Waits,
}

/// Takes the first message that some clause of the receive matches; where there is none, goes on with the late body if the
/// worker's time has come. Refuses where a cell for each new message, two for those in the back, and one for each name that a
/// pattern binds are not left.
pub fn take_message(
    code: &[u32],
    heap: &mut Heap<'_>,
    receive: Slot,
    site: Site,
    mailbox: Mailbox,
    due: bool,
) -> Result<Waited, Full>
    ensures grows { Grows (stored heap.old) (stored heap.new) }
    ensures sim { TakeSim code.now (stored heap.old) (stored heap.new) receive site mailbox due result }
{
    let clauses = Clauses {
        code,
        first: code.left(receive),
        env: site.env,
    };
    let Taken { chosen, mailbox } = clauses.take_first(heap, mailbox)?;
    match chosen {
        Some(Chosen { body, env }) => {
            let next = Next::Took(Control::Enter(body, Site { env, ..site }));
            Ok(Waited { next, mailbox })
        }
        None if due => {
            let late = code.right(code.right(receive));
            let next = Next::Late(Control::Enter(late, site));
            Ok(Waited { next, mailbox })
        }
        None => {
            let next = Next::Waits;
            Ok(Waited { next, mailbox })
        }
    }
}
