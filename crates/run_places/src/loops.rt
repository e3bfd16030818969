// The loops that are open at a place.
ghost use Rattle.std.specs.Prelude.{◌≤◌};
ghost use Rattle.value.specs.Limits.{most_open};

use value::limits::MOST_OPEN;

// The words of the lowest and of the highest value of the variables of the open loops, of which there are `depth`, outermost first.
#[derive(Clone, Copy, Debug, PartialEq, Eq)]
pub struct Loops {
    pub lows: [u32; MOST_OPEN],
    pub highs: [u32; MOST_OPEN],
    pub depth: usize,
    pub ghost deep: { depth ≤ most_open },
}

impl Loops {
    ghost use Rattle.std.specs.Prelude.{◌≡◌, ◌<◌, [], ◌∷◌, ◌++◌, length};
    ghost use Rattle.run_places.specs.Promises.Vectors.{vector_values, ends, open_loops};

    // No loop is open.
    #[tactic(auto, using(crate::proofs::LoopLaws::loops_none))]
    pub fn none() -> Loops
        ensures { open_loops result ≡ [] }
    {
        Loops {
            lows: [0; MOST_OPEN],
            highs: [0; MOST_OPEN],
            depth: 0,
        }
    }

    // With one loop more, of these values.
    #[tactic(auto, using(crate::proofs::LoopLaws::loops_more))]
    pub fn opened(self, low: u32, high: u32) -> Loops
        requires { self.depth < most_open }
        ensures { open_loops result ≡ open_loops self ++ ends low high ∷ [] }
    {
        let mut more = self;
        more.lows[more.depth] = low;
        more.highs[more.depth] = high;
        more.depth += 1;
        more
    }

    // The words of the lowest values.
    #[tactic(auto, using(crate::proofs::LoopLaws::values_taken))]
    pub fn lows(&self) -> &[u32]
        ensures { vector_values result.now (length result.now) ≡ vector_values self.now.lows self.now.depth }
    {
        &self.lows[..self.depth]
    }

    // The words of the highest values.
    #[tactic(auto, using(crate::proofs::LoopLaws::values_taken))]
    pub fn highs(&self) -> &[u32]
        ensures { vector_values result.now (length result.now) ≡ vector_values self.now.highs self.now.depth }
    {
        &self.highs[..self.depth]
    }
}
