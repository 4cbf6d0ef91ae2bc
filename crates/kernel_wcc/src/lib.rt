//! Weakly connected components over the image of a graph (LDBC Graphalytics, WCC).
//!
//! 1. Each place has a label: a place of its component that isn't above it. At first that is the lowest place to which
//!    an arc leads from it, if that one is lower, so that trees grow with no search.
//! 2. To join two places is to make their labels lead to one place, by labels that only sink. First each place that
//!    is still its own label is joined with the ends of its arcs. In most graphs nearly all places of the largest
//!    component have one label then.
//! 3. The other places are joined with the ends of all their arcs, out and in; a place with the large label needs
//!    none of its own, since an arc between it and another place is looked at there (Afforest: Sutton, Ben-Nun and
//!    Barak, IPDPS 2018).
//! 4. At last the label where the labels of a place lead to is the least place of its component.
#![tactic(auto)]

mod kernel;
mod labels;

pub use kernel::run;
