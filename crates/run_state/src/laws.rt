//! Laws of the records: functions with an empty body.
ghost use Rattle.run_state.specs.Laws.{HonestKeysAreNew, LegalKeysLieSideBySide, LegalRecordsPart, PayloadsHaveOneMeaning};

/// After legal records the recorded rows and the shares of the waiting keys are the extreme vectors, each in one place.
pub fn legal_records_part()
    ensures { LegalRecordsPart }
{}

/// After legal records no waiting key lies under another, and no done key under a waiting one.
pub fn legal_keys_lie_side_by_side()
    ensures { LegalKeysLieSideBySide }
{}

/// An honest reply to a waiting key gives back new keys alone.
pub fn honest_keys_are_new()
    ensures { HonestKeysAreNew }
{}

/// Payloads that are some are one ledger text, or have one first payload that is broken.
pub fn payloads_have_one_meaning()
    ensures { PayloadsHaveOneMeaning }
{}
