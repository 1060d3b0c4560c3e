//! The theorems about breaches and reports: each is the contract of a function that has nothing to compute.
ghost use Rattle.rules.specs.Laws.{ReportLists, OneList, MovedLaw};

/// The computed report lists the breaches of a form: every one, nothing else, each once, in order.
pub fn report_lists()
    ensures { ReportLists }
{}

/// A form has one list of its breaches.
pub fn one_list()
    ensures { OneList }
{}

/// A breach of an own or a pair rule goes with the entries that it names.
pub fn moved_law()
    ensures { MovedLaw }
{}
