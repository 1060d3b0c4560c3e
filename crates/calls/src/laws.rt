//! The theorems about runs of calls: each is the contract of a function that has nothing to compute.
ghost use Rattle.calls.specs.Law.{ExactLaw, StableLaw};

/// Every answer of a run is the defined one for the book then held, and accepted reports list the breaches.
pub fn exact_law()
    ensures { ExactLaw }
{}

/// A breach comes or goes between two reports only where a call touched what it is about.
pub fn stable_law()
    ensures { StableLaw }
{}
