//! The operations of a file to which rows are appended.
ghost use Rattle.std.specs.Prelude.{◌≡◌, ◌≢◌, ◌≤◌, [], length, take, IfOk, IfSome, OnErr};
ghost use Rattle.call_files.specs.Lines.{followed_by, beginning_of};
ghost use Rattle.call_files.specs.declared.row_file.Whereabouts.TheVariants.{Emptied};

use crate::fault::Fault;

/// The state of the content of a file that was just opened.
#[derive(Clone, Copy)]
pub enum Beginning {
    /// Nothing.
    Empty,
    /// Whole lines.
    Lines,
    /// Lines; the last has no end.
    CutLine,
}

/// The file to which the name of an open file leads now.
#[derive(Clone, Copy)]
pub enum Whereabouts {
    /// To the file that is open.
    Same,
    /// To the file that is open, which is empty now.
    Emptied,
    /// To another file, or to none.
    Elsewhere,
}

/// A file with a name, to whose end octets are written.
pub trait RowFile {
    ghost use Rattle.std.specs.Prelude.{ℕ, List, Option, None};

    /// The content of the open file, if it is known.
    ghost contents: { Self → Option (List ℕ) } = { λ _. None };

    /// Opens the file that the name leads to, or makes it if there is none. The file that was open is closed. Returns
    /// `Fault` if the system refuses.
    fn open(&mut self) -> Result<Beginning, Fault>
        ensures { IfOk result (λ beginning. IfSome (contents self.new) (λ octets. beginning ≡ beginning_of octets)) };

    /// Returns where the name leads now.
    fn look(&mut self) -> Whereabouts
        ensures same { result ≢ Emptied → contents self.new ≡ contents self.old }
        ensures emptied { result ≡ Emptied → IfSome (contents self.new) (λ octets. octets ≡ []) };

    /// Appends octets, as many as the system takes. Returns how many these were, or `Fault` if the system took none.
    fn append(&mut self, octets: &[u8]) -> Result<usize, Fault>
        ensures within { IfOk result (λ count. count ≤ length octets.now) }
        ensures taken { IfOk result (λ count. contents self.new ≡ followed_by (take count octets.now) (contents self.old)) }
        ensures refused { OnErr result (contents self.new ≡ contents self.old) };

    /// Syncs all written octets to the disk. Returns `Fault` if the system refuses.
    fn sync(&mut self) -> Result<(), Fault>
        ensures same { contents self.new ≡ contents self.old };
}
