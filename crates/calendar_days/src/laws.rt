//! What follows from the definitions.

ghost use Rattle.calendar_days.specs.Laws.{DaysAreComputed, EachDayHasAText, EachTextHasADay, NoDayHasTwoTexts, NoTextHasTwoDays};

/// Does nothing: its contract is that the texts that are read and the multiples of 86,400 from 0 to 252,991,987,200 belong together
/// one to one.
pub fn calendar_laws()
    ensures a_text { EachDayHasAText }
    ensures one_text { NoDayHasTwoTexts }
    ensures a_day { EachTextHasADay }
    ensures one_day { NoTextHasTwoDays }
    ensures computed { DaysAreComputed }
{}
