//! A folder of the file system, which the program reads. It is proved against the trait alone: what is on a disk others
//! may change at any time.
//!
//! Regular files are listed, in the folder and its subfolders, named relative to it with `/`; no symbolic link is, and
//! nothing behind one is read. Every entry counts towards the limit, and a folder is listed whole before its
//! subfolders, so that one is open at a time. A name that is no UTF-8 is a fault, since the runtime asks for files by
//! texts alone. `names` or `read` before the first `enter` is a fault; an `enter` that fails leaves the folder that
//! was entered.
#![tactic(auto)]

mod dir_folder;

pub use dir_folder::DirFolder;
