//! The limits of the analysis. Code and definitions cite these names, and the law `limit_numbers` says each number.

/// Fields in a path.
pub const MAX_PATH_FIELDS: usize = 16;

/// Different keys of access records in a summary, and as many paths in its set of wobbly ones.
pub const MAX_SUMMARY_KEYS: usize = 1_024;

/// Steps of a way.
pub const MAX_WAY_STEPS: u32 = 65_536;

/// Source files of a folder.
pub const MAX_FILES: usize = 4_096;

/// Entries of a folder of the file system, with those of its subfolders.
pub const MAX_FOLDER_ENTRIES: u32 = 1_048_576;

/// Nesting of the subfolders of a folder of the file system.
pub const MAX_FOLDER_NESTING: u32 = 64;

/// Bytes of one source file.
pub const MAX_FILE_BYTES: usize = 1_048_576;

/// Bytes of all source files together.
pub const MAX_FOLDER_BYTES: usize = 33_554_432;

/// Classes of a folder.
pub const MAX_CLASSES: usize = 2_048;

/// Methods of a folder.
pub const MAX_METHODS: usize = 4_096;

/// Different call edges of a folder.
pub const MAX_CALL_EDGES: usize = 65_536;

/// Nesting of a method's tree.
pub const MAX_NESTING: u32 = 200;

/// Nesting of the brackets of a file.
pub const MAX_BRACKET_NESTING: u32 = 200;

/// Parameters of a method.
pub const MAX_PARAMETERS: usize = 64;

/// Locals of a method that are no parameters.
pub const MAX_LOCALS: usize = 512;

/// Workers, at least.
pub const MIN_WORKERS: u32 = 1;

/// Workers, at most.
pub const MAX_WORKERS: u32 = 64;
