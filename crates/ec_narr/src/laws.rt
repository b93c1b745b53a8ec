//! What is so of narratives and lists.
ghost use Rattle.ec_narr.specs.Laws.{HaveOneTruth, IsOneAnswer, AreReadBack};

/// The narratives of different truths are different texts, whatever their numbers, where each noninertial fluent is
/// released at each time.
pub fn one_truth()
    ensures { HaveOneTruth }
{}

/// Bytes come to one list or to one faulty line: so none are the text of two lists.
pub fn one_list()
    ensures { IsOneAnswer }
{}

/// The text of a list has no faulty line: it is read as that list.
pub fn read_back()
    ensures { AreReadBack }
{}
