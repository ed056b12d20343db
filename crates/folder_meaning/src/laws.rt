// The laws of readings.
ghost use Rattle.std.specs.Prelude.{◌≡◌, ◌↔◌, ◌+◌, ◌^◌, ◌<◌, Some};
ghost use Rattle.std.specs.declared.option.Option.{Option};
ghost use Rattle.host_io.specs.declared.folder.Faults.{Faults};
ghost use Rattle.host_io.specs.Causes.{Calls};
ghost use Rattle.host_io.specs.Folder.{Files};
ghost use Rattle.folder_meaning.specs.Reading.{Reading, AllowsReading, IsReadingOf, reading_of, unfailed_reading};
ghost use Rattle.folder_meaning.specs.ReadingFaults.{HasFaults};

/// The law of readings: calls by number determine the reading, which the files alone allow, and some reading is always
/// allowed. Where no call was counted as failed, the reading is the one in which every file has its bytes.
pub fn readings_are_determined()
    ensures determined { (files : Files) (calls : Calls) (reading : Reading) → IsReadingOf (Some files) (Some calls) reading ↔ (reading ≡ reading_of files calls) }
    ensures allowed { (files : Files) (calls : Calls) → AllowsReading files (reading_of files calls) }
    ensures some { (files : Option Files) (calls : Option Calls) → (reading : Reading) × IsReadingOf files calls reading }
    ensures unfailed { (files : Files) (before now : Faults) (reading : Reading) → AllowsReading files reading → HasFaults before now reading → now ≡ before → before.deciding + 1 < 2 ^ 64 → before.other + 1 < 2 ^ 64 → reading ≡ unfailed_reading files }
{}
