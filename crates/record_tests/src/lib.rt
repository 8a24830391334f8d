// Examples for records: every range at both ends, on both kinds of collectors, what refusals leave, and fields, setters and faults made of other values.
#![tactic(auto)]

#[cfg(test)]
mod conversion_examples;
#[cfg(test)]
mod docket_examples;
#[cfg(test)]
mod edge_examples;
#[cfg(test)]
mod pair;
#[cfg(test)]
mod parsed_examples;
