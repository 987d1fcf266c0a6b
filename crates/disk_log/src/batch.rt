//! What is committed at a time.
ghost use Rattle.std.specs.Prelude.{◌≡◌, ℕ, ◌+◌, ◌≤◌, ◌^◌, ◌↔◌, List, [], ◌∷◌, ◌++◌, ◌-◌, ◌<◌, length, take, drop, IfOk, OnOk, OnErr, IsTrue, true};
ghost use Rattle.std.specs.Int.{w32, to_be_bytes};
ghost use Rattle.yard_model.specs.Text.{fact_line};
ghost use Rattle.fact_lines.specs.Entry.{is_entry};
ghost use Rattle.disk_log.specs.Batch.{text_in, IsPiece};
ghost use Rattle.disk_log.specs.Frames.{framed};

use fact_lines::push_entry;
use std::alloc::{AllocError, Global};
use std::marker::Model;
use yard_model::Fact;

/// How many bytes of text a batch has at most.
const MOST: usize = 2_147_483_648;

/// The lines of entries that are to be committed as a whole: a text of at most 2^31 bytes.
///
/// It is kept as it will stand on the disk: its length in four bytes, its bytes, and the next gate, closed.
#[derive(Drop)]
pub struct Batch {
    piece: Vec<u8>,
    line: Vec<u8>,
}

impl Model for Batch {
    ghost use Rattle.std.specs.Prelude.{List, ℕ};
    ghost use Rattle.disk_log.specs.Batch.{text_in, IsPiece};

    ghost Value = { List ℕ };

    ghost view = { λ b. text_in b.piece.items };

    ghost invariant = { λ b. IsPiece b.piece.items };
}

impl Batch {
    /// An empty batch.
    pub fn new(alloc: Global) -> Result<Batch, AllocError>
        ensures { IfOk result (λ b. b ≡ []) }
    {
        Ok(Batch {
            piece: Vec::from_slice(alloc, &[0, 0, 0, 0, 0])?,
            line: Vec::new(alloc),
        })
    }

    /// Adds the line of an entry at the end. The only error is want of memory, as which a text of more than 2^31
    /// bytes counts too; then nothing changes.
    pub fn push(&mut self, fact: &Fact) -> Result<(), AllocError>
        requires { is_entry fact.now ≡ true }
        ensures ok { OnOk result (self.new ≡ self.old ++ fact_line fact.now) }
        ensures err { OnErr result (self.new ≡ self.old) }
    {
        self.line.clear();
        push_entry(&mut self.line, fact)?;
        append(&mut self.piece, &self.line)?;
        Ok(())
    }

    /// Adds bytes at the end. The only error is want of memory, as which a text of more than 2^31 bytes counts too;
    /// then nothing changes.
    pub fn push_text(&mut self, text: &[u8]) -> Result<(), AllocError>
        ensures ok { OnOk result (self.new ≡ self.old ++ text.now) }
        ensures err { OnErr result (self.new ≡ self.old) }
    {
        append(&mut self.piece, text)?;
        Ok(())
    }

    /// Leaves nothing in it.
    pub fn clear(&mut self)
        ensures { self.new ≡ [] }
    {
        self.piece.truncate(5);
        empty(self.piece.as_mut_slice());
    }

    /// Whether there is nothing in it.
    pub fn is_empty(&self) -> bool
        ensures empty { IsTrue result ↔ (self.now ≡ []) }
        ensures fits { length self.now ≤ 2 ^ 31 }
    {
        self.piece.len() == 5
    }

    /// The bytes that stand on the disk: the frame, and a closed gate.
    pub fn piece(&self) -> &[u8]
        ensures piece { result.now ≡ framed self.now ++ 0 ∷ [] }
        ensures fits { length self.now ≤ 2 ^ 31 }
    {
        self.piece.as_slice()
    }
}

/// Adds bytes at the end of a piece's text. On an error nothing changes.
fn append(piece: &mut Vec<u8>, text: &[u8]) -> Result<(), AllocError>
    requires { IsPiece piece.old.items }
    ensures piece { IsPiece piece.new.items }
    ensures ok { OnOk result (text_in piece.new.items ≡ text_in piece.old.items ++ text.now) }
    ensures err { OnErr result (piece.new.items ≡ piece.old.items) }
{
    if text.len() > MOST - (piece.len() - 5) {
        return Err(AllocError);
    }
    piece.extend_from_slice(text)?;
    seal(piece.as_mut_slice(), text);
    Ok(())
}

/// Makes a piece again of one behind which a line stands: the line moves before the closed gate.
fn seal(piece: &mut [u8], line: &[u8])
    requires fits { length piece.old < 2 ^ 32 }
    requires room { length line.now + 5 ≤ length piece.old }
    ensures { piece.new ≡ to_be_bytes w32 (length piece.old - 5) ++ take (length piece.old - 5 - length line.now) (drop 4 piece.old) ++ line.now ++ 0 ∷ [] }
{
    let size = piece.len() - 5;
    let text = size - line.len();
    let (front, back) = piece.split_at_mut(4);
    front.copy_from_slice(&(size as u32).to_be_bytes());
    let (_, behind) = back.split_at_mut(text);
    let (place, gate) = behind.split_at_mut(line.len());
    place.copy_from_slice(line);
    gate[0] = 0;
}

/// The piece of no text.
fn empty(piece: &mut [u8])
    requires { length piece.old ≡ 5 }
    ensures { piece.new ≡ framed [] ++ 0 ∷ [] }
{
    piece.copy_from_slice(&[0, 0, 0, 0, 0]);
}
