//! What a method is made of.
use java_resolver::MethodInfo;
use java_tree::{Member, MethodTree};

/// The constructor that a class has without declaring it; a tree; what no tree spells, or not one that is lowered.
#[derive(Clone, Copy)]
pub enum Body<'a> {
    Default,
    Spelled(&'a MethodTree),
    Unspelled,
}

/// What is known of a method, the members of its class, and its body.
#[derive(Clone, Copy)]
pub struct Source<'a> {
    pub info: &'a MethodInfo,
    pub members: &'a [Member],
    pub body: Body<'a>,
}
