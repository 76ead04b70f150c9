//! How a read or a write fails.

/// The device failed at this call. The call moved no byte, and the device counted it.
#[derive(Clone, Copy, Debug, PartialEq, Eq)]
pub struct Failed;

/// A write of a text failed. Some first bytes of the text went out, and nothing after them.
#[derive(Clone, Copy, Debug, PartialEq, Eq)]
pub struct WriteFault;

impl From<Failed> for WriteFault {
    ghost from_gives = { λ _ _. Unit {0} };

    fn from(_: Failed) -> WriteFault {
        WriteFault
    }
}
