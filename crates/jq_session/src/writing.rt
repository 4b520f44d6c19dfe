// Pieces are written one after the other through a buffer of fixed size.
ghost use Rattle.std.specs.Prelude.{◌≡◌, ◌++◌, [], IfOk, IsFalse, IsTrue, OnErr, OnOk};
ghost use Rattle.std.specs.List.{flat_map};
ghost use Rattle.std.specs.Io.KnownBytes.{Appends};
ghost use Rattle.jq_devices.specs.Watched.{HasFailed, device_of, failures_of};
ghost use Rattle.jq_devices.specs.Writing.{AppendsFirst};
ghost use Rattle.jq_pages.specs.Contents.{folded_of};
ghost use Rattle.jq_pages.specs.Folds.{all};
ghost use Rattle.jq_pages.specs.Pieces.{piece_view};
ghost use Rattle.jq_session.specs.private.Writing.{IsPassed};
ghost use Rattle.jq_session.specs.private.Parts.{part_in, parts_of};

use arrayvec::ArrayVec;
use jq_devices::{StreamFault, Watched, Write, write};
use jq_pages::{Pages, Piece, Steps};
use jv_data::NoMemory;
use std::alloc::Global;

// How many bytes are gathered for a write.
const GATHERED: usize = 8_192;

/// The output or the errors of a piece.
#[derive(Clone, Copy)]
pub(crate) enum Part {
    Output,
    Errors,
}

#[tactic(auto, unfolding(jq_pages::specs::Pieces::piece_view))]
fn bytes_of(part: Part, piece: &Piece) -> &[u8]
    ensures { result.now ≡ part_in part (piece_view piece.now) }
{
    match part {
        Part::Output => &piece.out,
        Part::Errors => &piece.err,
    }
}

/// Bytes that were not written yet.
#[derive(Drop)]
pub(crate) struct Gathered {
    bytes: ArrayVec<u8, GATHERED>,
}

impl Gathered {
    pub(crate) fn new() -> Gathered
        ensures { result.bytes.items ≡ [] }
    {
        Gathered {
            bytes: ArrayVec::new(),
        }
    }

    // Adds bytes if there is room for them.
    fn keep(&mut self, bytes: &[u8]) -> bool
        ensures kept { IsTrue result → self.new.bytes.items ≡ self.old.bytes.items ++ bytes.now }
        ensures full { IsFalse result → self.new.bytes.items ≡ self.old.bytes.items }
    {
        self.bytes.try_extend_from_slice(bytes).is_ok()
    }

    /// Adds bytes, and writes if they do not fit. After a fault the first bytes of all these were written.
    pub(crate) fn add<W: Write>(
        &mut self,
        writer: &mut Watched<W>,
        bytes: &[u8],
    ) -> Result<(), StreamFault>
        ensures ok { OnOk result (IsPassed self.old.bytes.items self.new.bytes.items (W.contents (device_of writer.old)) (W.contents (device_of writer.new)) bytes.now) }
        ensures err { OnErr result (AppendsFirst (W.contents (device_of writer.old)) (W.contents (device_of writer.new)) (self.old.bytes.items ++ bytes.now)) }
        ensures unfailed { OnOk result (failures_of writer.new ≡ failures_of writer.old) }
        ensures failed { OnErr result (HasFailed (failures_of writer.old) (failures_of writer.new)) }
    {
        if self.keep(bytes) {
            return Ok(());
        }
        write(writer, &self.bytes)?;
        self.bytes.clear();
        if self.keep(bytes) {
            return Ok(());
        }
        write(writer, bytes)
    }

    /// Adds a part of these pieces.
    fn add_pieces<W: Write>(
        &mut self,
        writer: &mut Watched<W>,
        part: Part,
        pieces: &[Piece],
    ) -> Result<(), StreamFault>
        ensures ok { OnOk result (IsPassed self.old.bytes.items self.new.bytes.items (W.contents (device_of writer.old)) (W.contents (device_of writer.new)) (parts_of part pieces.now)) }
        ensures err { OnErr result (AppendsFirst (W.contents (device_of writer.old)) (W.contents (device_of writer.new)) (self.old.bytes.items ++ parts_of part pieces.now)) }
        ensures unfailed { OnOk result (failures_of writer.new ≡ failures_of writer.old) }
        ensures failed { OnErr result (HasFailed (failures_of writer.old) (failures_of writer.new)) }
    {
        for piece in pieces {
            self.add(writer, bytes_of(part, piece))?;
        }
        Ok(())
    }

    /// Writes the bytes that are left and flushes the writer.
    pub(crate) fn finish<W: Write>(&self, writer: &mut Watched<W>) -> Result<(), StreamFault>
        ensures ok { OnOk result (Appends (W.contents (device_of writer.old)) (W.contents (device_of writer.new)) self.now.bytes.items) }
        ensures err { OnErr result (AppendsFirst (W.contents (device_of writer.old)) (W.contents (device_of writer.new)) self.now.bytes.items) }
        ensures unfailed { OnOk result (failures_of writer.new ≡ failures_of writer.old) }
        ensures failed { OnErr result (HasFailed (failures_of writer.old) (failures_of writer.new)) }
    {
        write(writer, &self.bytes)
    }
}

/// Writes a part of all pieces, one after the other, and flushes the writer. It takes no memory. After a fault, the first bytes were
/// written.
pub(crate) fn write_pieces<S: Steps, W: Write>(
    pages: &Pages<S>,
    part: Part,
    writer: &mut Watched<W>,
) -> Result<(), StreamFault>
    ensures ok { OnOk result (Appends (W.contents (device_of writer.old)) (W.contents (device_of writer.new)) (flat_map (part_in part) (all (folded_of pages.now)))) }
    ensures err { OnErr result (AppendsFirst (W.contents (device_of writer.old)) (W.contents (device_of writer.new)) (flat_map (part_in part) (all (folded_of pages.now)))) }
    ensures unfailed { OnOk result (failures_of writer.new ≡ failures_of writer.old) }
    ensures failed { OnErr result (HasFailed (failures_of writer.old) (failures_of writer.new)) }
{
    let mut gathered = Gathered::new();
    gathered.add(writer, bytes_of(part, pages.head()))?;
    for j in 0..pages.page_count() {
        gathered.add_pieces(writer, part, pages.page(j))?;
    }
    gathered.add(writer, bytes_of(part, pages.tail()))?;
    gathered.finish(writer)
}

/// The bytes of a part of all pieces, one after the other.
pub(crate) fn bytes_in<S: Steps>(
    alloc: Global,
    pages: &Pages<S>,
    part: Part,
) -> Result<Vec<u8>, NoMemory>
    ensures { IfOk result (λ bytes. bytes.items ≡ flat_map (part_in part) (all (folded_of pages.now))) }
{
    let mut writer = Watched::new(Vec::new(alloc));
    // A write to a vector fails only if memory runs out.
    match write_pieces(pages, part, &mut writer) {
        Ok(()) => Ok(writer.into_device()),
        Err(_) => Err(NoMemory),
    }
}
