//! The draws of one worker.
ghost use Rattle.std.specs.Prelude.{◌≡◌, ◌+◌, ◌*◌};
ghost use Rattle.rand_pcg.specs.Pcg.{pcg32};
ghost use Rattle.node_runner.specs.Drawn.{first_of, fate};

use rand_core::SeedableRng;
use rand_core::utils::NextWord;
use rand_pcg::Lcg64Xsh32;
use yard_model::NodeNo;

/// What becomes of a packet that is to be posted.
#[derive(Clone, Copy, Debug, PartialEq, Eq)]
pub enum Fate {
    /// It is lost.
    Lost,
    /// It is posted twice.
    Twice,
    /// It is posted after the next turn.
    Later,
    /// It is posted once.
    Once,
}

/// The words that a worker draws, one after the other.
#[derive(Drop)]
pub struct Draws {
    pub(crate) words: Lcg64Xsh32,
}

impl Draws {
    /// The draws of a node's worker, in the run with this seed.
    pub fn new(seed: u32, node: NodeNo) -> Draws
        ensures { result.words ≡ first_of seed node }
    {
        let state = seed as u64 * 16 + node.get() as u64;
        Draws {
            words: Lcg64Xsh32::seed_from_u64(state),
        }
    }

    /// The next word.
    pub fn next(&mut self) -> u32
        ensures { (result, self.new.words) ≡ pcg32 self.old.words }
    {
        self.words.next_word()
    }

    /// What becomes of the next packet: of 16 words one loses it, one posts it twice, and one posts it
    /// after the next turn.
    pub fn fate(&mut self) -> Fate
        ensures fate { result ≡ fate (pcg32 self.old.words).0 }
        ensures words { self.new.words ≡ (pcg32 self.old.words).1 }
    {
        let word = self.next();
        fate_of(word)
    }
}

/// What a word makes of a packet.
fn fate_of(word: u32) -> Fate
    ensures { result ≡ fate word }
{
    let left = word % 16;
    if left == 0 {
        Fate::Lost
    } else if left == 1 {
        Fate::Twice
    } else if left == 2 {
        Fate::Later
    } else {
        Fate::Once
    }
}
