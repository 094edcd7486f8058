// The five walks and the five listings, over prepared numbers: what a step takes, and the listing of all progressions. Both ask for a sound state.
// The walks are kept as five functions, each one nest of loops left by a label: document 01, 'Form by location'.
#![tactic(auto)]

mod by_resolution;
mod cell;
mod count;
mod cprl;
mod entries;
mod level;
mod list;
mod list_cprl;
mod list_lrcp;
mod list_pcrl;
mod list_rlcp;
mod list_rpcl;
mod lrcp;
mod next;
mod pcrl;
mod plan;
mod prepare;
mod prepared;
mod rlcp;
mod row;
mod rpcl;
pub mod run;
mod search;
pub mod take;
mod walk;
