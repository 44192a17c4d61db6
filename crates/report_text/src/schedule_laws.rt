//! The definition of a schedule's text at a small schedule.

ghost use Rattle.std.specs.Prelude.{◌≡◌};
ghost use Rattle.report_text.specs.ScheduleExamples.{blocks, text};
ghost use Rattle.report_text.specs.ScheduleText.{schedule_text};

/// A schedule with items of both kinds, and its text.
pub fn a_schedule_and_its_text()
    ensures { schedule_text blocks ≡ text }
{}
