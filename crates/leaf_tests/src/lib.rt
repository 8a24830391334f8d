// Examples for the leaf scanners, from the RFCs and from chrono's documentation.
#![tactic(auto)]

#[cfg(test)]
mod comment_examples;
#[cfg(test)]
mod name_examples;
#[cfg(test)]
mod number_examples;
#[cfg(test)]
mod text_examples;
#[cfg(test)]
mod zone_examples;
