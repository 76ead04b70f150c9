//! The table that says what each call of a disk in memory does.

/// What one call does.
#[derive(Clone, Copy, Debug, PartialEq, Eq)]
pub enum DiskCall {
    /// What it is to do.
    Do,
    /// It fails, and has done nothing.
    Fail,
    /// It fails after it has written so many bytes, or has cut; a call that does neither fails.
    Tear(usize),
    /// The program is stopped here: this call and each later one fails, and has done nothing.
    Stop,
}

/// Takes the first call off a table. Past its end each call does what it is to do.
pub(crate) fn next_call(table: &mut &[DiskCall]) -> DiskCall {
    match *table {
        [DiskCall::Stop, ..] => DiskCall::Fail,
        [first, others @ ..] => {
            let call = *first;
            *table = others;
            call
        }
        [] => DiskCall::Do,
    }
}
