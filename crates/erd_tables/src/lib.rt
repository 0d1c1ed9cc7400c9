//! The classes and families of the format, the member table, places in a JSON value, and faults.
#![tactic(auto)]

pub mod class;
pub mod fault;
pub mod member;
pub mod per_family;
pub mod place;
mod row_kinds;
pub mod text;

pub use class::{Class, Family, Role, class_in, class_of, family_of, role_of, type_text};
pub use fault::{Fault, FaultList, Reason};
pub use member::{
    MemberKind, is_envelope, is_reference_form, is_required_member, member_kind, required,
};
pub use per_family::PerFamily;
pub use place::{Place, Step, pointer};
pub use text::Text;
