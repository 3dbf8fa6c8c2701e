//! Tests of the reading of drawings: the tree of a text, and the station for which a drawing stands.
#![tactic(auto)]

#[cfg(test)]
mod attribute_values;
#[cfg(test)]
mod drawings;
#[cfg(test)]
mod exported;
#[cfg(test)]
mod long_names;
#[cfg(test)]
mod pieces;
#[cfg(test)]
mod refusals;
#[cfg(test)]
mod refused_rows;
#[cfg(test)]
mod remark_rows;
#[cfg(test)]
mod remarks;
#[cfg(test)]
mod station_texts;
#[cfg(test)]
mod stations;
#[cfg(test)]
mod trees;
