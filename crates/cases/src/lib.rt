//! Forms, each with the breaches that the definition gives it, and near misses that break nothing.
#![tactic(auto)]

#[cfg(test)]
mod arguments;
#[cfg(test)]
mod calls;
#[cfg(test)]
mod flags;
#[cfg(test)]
mod items;
#[cfg(test)]
mod pairs;
#[cfg(test)]
mod shown;
#[cfg(test)]
mod whole;
