//! The laws of schedules, over every setting of callers, places and first generation.

ghost use Rattle.sf_steps_laws.specs.Laws.{SchedulesAreLegal, PeeksAreRight, LooksAreRight, LooksHavePeeks, LettersAreAnswers, LettersArrive, TicketsAreServed, CellsAreCollected, FirstLettersAreCollected, OthersAreLeft, OwnTurnsDecide, ClosesFailSeldom, FailedClosesAdd, ClosesAreFew, ClosesAdd};
ghost use Rattle.sf_steps_laws.specs.Named.{SparedAreLeft, OthersAddNothing, MakersAreCallers};
ghost use Rattle.sf_steps_laws.specs.Questions.{LooksHaveOwnPeeks, YesAtThePeekNoAtTheLook};
ghost use Rattle.sf_steps_laws.specs.Afters.{LeadsKnowCurrent};
ghost use Rattle.sf_steps_laws.specs.Within.{WorldsAreWithin, WordsAreLawful};
ghost use Rattle.sf_steps_laws.specs.Waiting.{DeliversAreApart, ListsStay, LeadersHaveLists};
ghost use Rattle.sf_steps_laws.specs.Naming.{NamesAreRight, HitsAreRight, PastStaysPast};
ghost use Rattle.sf_steps_laws.specs.Changed.{KeysChange, WordsChange};
ghost use Rattle.sf_steps_laws.specs.Counts.{CountsAreRight, SettlesAreCounted, CountsHaveLists};

/// The events of a schedule are a legal history.
pub fn schedules_are_legal<V>()
    ensures { SchedulesAreLegal V }
{}

/// Each event is made by a caller, and turns that do not concern a caller add none of its events.
pub fn events_have_makers<V>()
    ensures callers { MakersAreCallers V }
    ensures others { OthersAddNothing V }
{}

/// The answer of a question is right at its peek or at its look, and each look comes after such a peek.
pub fn questions_are_answered_rightly<V>()
    ensures at_the_peek { PeeksAreRight V }
    ensures at_the_look { LooksAreRight V }
    ensures looks_have_peeks { LooksHavePeeks V }
{}

/// A look comes after a peek of the same question. Where it says yes, the call was current at that peek; where it says no, the call is not current at the look.
pub fn looks_are_of_one_question<V>()
    ensures own_peeks { LooksHaveOwnPeeks V }
    ensures yes_and_no { YesAtThePeekNoAtTheLook V }
{}

/// An asking whose exchange of the key word wins knows which call was current before its own.
pub fn leads_know_the_call_before<V>()
    ensures { LeadsKnowCurrent V }
{}

/// Each delivered letter names the call that its member waits for, and holds that call's answer. It is then in the
/// member's cell.
pub fn letters_are_answers<V>()
    ensures answers { LettersAreAnswers V }
    ensures arrive { LettersArrive V }
{}

/// A caller that holds a ticket waits for a call that is not handed out, or has its letter.
pub fn tickets_are_served<V>()
    ensures { TicketsAreServed V }
{}

/// The callers to whom a leader owes letters are one list of waiting callers, shorter than the callers are many. Turns of others leave
/// it as it is, and two callers that deliver at once deliver into different cells.
pub fn leaders_have_lists<V>()
    ensures lists { LeadersHaveLists V }
    ensures stay { ListsStay V }
    ensures apart { DeliversAreApart V }
{}

/// Between two delivers into one cell, its owner collected the first.
pub fn cells_are_collected<V>()
    ensures collected { CellsAreCollected V }
    ensures that_letter { FirstLettersAreCollected V }
{}

/// A turn leaves the callers that it does not concern where they stand, with all that they remember. It concerns those
/// alone whom it names, and the seconds of their chans.
pub fn others_are_left<V>()
    ensures by_a_turn { OthersAreLeft V }
    ensures by_turns { OwnTurnsDecide V }
    ensures spared { SparedAreLeft V }
{}

/// A leader's exchange to close its call fails at most as often as there are callers, so there are at most callers plus
/// one of them. What a schedule in two parts has of them adds up.
pub fn closes_fail_seldom<V>()
    ensures seldom { ClosesFailSeldom V }
    ensures few { ClosesAreFew V }
    ensures failed_add { FailedClosesAdd V }
    ensures add { ClosesAdd V }
{}

/// Words, and what callers remember of them, name callers of the setting and generations that words can hold. So each
/// word has a code.
pub fn words_are_in_range<V>()
    ensures within { WorldsAreWithin V }
    ensures lawful { WordsAreLawful V }
{}

/// A word that is not what it was read as was changed by a turn between.
pub fn words_change_by_turns<V>()
    ensures keys { KeysChange V }
    ensures words { WordsChange V }
{}

/// A call that a look finds named by the key word is the one that was led last on the place; where it finds none, the
/// place has no current call.
pub fn key_words_name_the_last_lead<V>()
    ensures { NamesAreRight V }
{}

/// A forget of one call that closed it found it open, one that cleared it found it current and not open, and one that
/// missed it found it not current.
pub fn hits_are_right<V>()
    ensures { HitsAreRight V }
{}

/// A call that was led on a place, and is not current there, is never current there again.
pub fn past_calls_stay_past<V>()
    ensures { PastStaysPast V }
{}

/// A leader that has counted knows how many joined its call: the number of its Settle, and of its answer. What it is still
/// to count is one list of waiting callers.
pub fn leaders_count_rightly<V>()
    ensures answers { CountsAreRight V }
    ensures settles { SettlesAreCounted V }
    ensures lists { CountsHaveLists V }
{}
