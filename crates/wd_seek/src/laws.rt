//! A law over the definitions.

ghost use Rattle.wd_seek.specs.Laws.{TestDecidesMeeting};

/// The test that selects candidates decides whether an instance meets a schema.
pub fn test_decides_meeting()
    ensures { TestDecidesMeeting }
{}
