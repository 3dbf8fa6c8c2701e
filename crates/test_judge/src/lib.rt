//! Tests of contractions, alphabets, decision graphs and the judge by graphs, on small stations worked by hand.
#![tactic(auto)]

#[cfg(test)]
mod agree;
#[cfg(test)]
mod alike;
#[cfg(test)]
mod alphabets;
#[cfg(test)]
mod answer_rows;
#[cfg(test)]
mod answers;
#[cfg(test)]
mod both;
#[cfg(test)]
mod composed;
#[cfg(test)]
mod ends;
#[cfg(test)]
mod finished;
#[cfg(test)]
mod graph_edges;
#[cfg(test)]
mod graphs;
#[cfg(test)]
mod lies;
#[cfg(test)]
mod placed;
#[cfg(test)]
mod reached;
#[cfg(test)]
mod renamed;
#[cfg(test)]
mod selected;
#[cfg(test)]
mod shared;
#[cfg(test)]
mod unchanged;
#[cfg(test)]
mod words;
