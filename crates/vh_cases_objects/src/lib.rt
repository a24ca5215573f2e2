//! Small designs, with what `vh_objects` and `vh_objects_names` answer of their objects.
#![tactic(auto)]

#[cfg(test)]
mod designs;
#[cfg(test)]
mod lists;
#[cfg(test)]
mod named;
#[cfg(test)]
mod properties;
#[cfg(test)]
mod single;
