//! Common ranks in place of keys, and numbers in place of the names of selections. A report has the ranks of its keys. The
//! keys of both reports are merged once, in their rising order, so that each key gets a rank that both reports have in
//! common. Then each name is looked up once. From then on ranks and numbers are compared.

pub(crate) mod common_ranks;
pub(crate) mod merging;
pub(crate) mod name_numbers;
pub(crate) mod role_objects;
