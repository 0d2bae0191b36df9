//! One caller of a barrier, and its calls.

ghost use Rattle.c_barrier.specs.Tries.{Tries};

use crate::shared::Share;
use par_barrier::{BarrierCall, BarrierReply};
use std::marker::Model;

/// One caller: contracts see its share of the barrier.
#[derive(Drop)]
pub struct Caller {
    pub(crate) share: Share,
}

impl Model for Caller {
    ghost use Rattle.c_barrier.specs.Codes.{share_code};
    ghost use Rattle.c_barrier.specs.Shares.{IsShare};
    ghost use Rattle.c_barrier.specs.declared.shared.Share.{Share};

    ghost Value = { Share };

    ghost coded = { share_code };

    ghost view = { λ c. c.share };

    ghost invariant = { λ c. IsShare c.share };
}

impl Caller {
    /// Makes a call of the barrier, unless another caller is there at this moment. One turn; if a phase ends with it,
    /// those who sleep until then are woken. It takes no memory.
    pub fn try_call(&mut self, call: BarrierCall) -> Option<BarrierReply>
        ensures { Tries self.old self.new call result }
    {
        let share = &mut self.share;
        match share.barrier.try_call(&mut share.pass, call) {
            Some(reply) => Some(reply),
            None => None,
        }
    }
}
