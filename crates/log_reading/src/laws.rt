//! The law of readings.
ghost use Rattle.log_reading.specs.ReadLaws.{ReadIsOpened};

/// Opening would find what reading finds.
pub fn read_is_opened()
    ensures { ReadIsOpened }
{}
