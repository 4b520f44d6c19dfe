// The faults that end a run before its outcome was written.
ghost use Rattle.std.specs.Prelude.{◌≡◌};

use jv_data::NoMemory;

/// Why a run over a stream ended before its outcome was written.
#[derive(Clone, Copy, Debug, PartialEq, Eq)]
pub enum StreamFault {
    /// The input could not be read.
    Read,
    /// An output could not be written.
    Write,
    /// Memory ran out.
    NoMemory,
}

impl StreamFault {
    ghost use Rattle.jq_devices.specs.Faults.{fault_line};

    /// The line that reports the fault on standard error.
    pub fn line(self) -> &'static [u8]
        ensures { result.now ≡ fault_line self }
    {
        match self {
            StreamFault::Read => b"jq: error: read fault\n",
            StreamFault::Write => b"jq: error: write fault\n",
            StreamFault::NoMemory => b"jq: error: out of memory\n",
        }
    }
}

impl From<NoMemory> for StreamFault {
    ghost use Rattle.jq_devices.specs.declared.faults.StreamFault.TheVariants.{NoMemory};

    ghost from_gives = { λ _ fault. fault ≡ NoMemory };

    fn from(_error: NoMemory) -> StreamFault {
        StreamFault::NoMemory
    }
}
