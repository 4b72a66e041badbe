// Examples: the small plant, and each refusal at an edge.
#![tactic(auto)]

#[cfg(test)]
mod calls;
#[cfg(test)]
mod limits;
#[cfg(test)]
mod small;
#[cfg(test)]
mod three_texts;
