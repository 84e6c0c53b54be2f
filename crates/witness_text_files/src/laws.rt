//! What is read of files, each as its text, and what is written.
ghost use Rattle.std.specs.Prelude.{◌≡◌, [], ◌∷◌, ◌++◌, Some, Ok as Read, codes, map, option_map, IsUtf8};
ghost use Rattle.serde_json.specs.Read.{read};
ghost use Rattle.serde_json.specs.Written.{compact_text};
ghost use Rattle.witness_text_files.specs.declared.fault.Field.TheVariants.{Version, Class, Entries, Path, Objects};
ghost use Rattle.witness_text_files.specs.declared.fault.Field.TheVariants.{Legs};
ghost use Rattle.witness_text_files.specs.declared.file.WitnessFile.{WitnessFile};
ghost use Rattle.witness_text_files.specs.Answers.{IsFile, seen};
ghost use Rattle.witness_text_files.specs.Files.{file_of};
ghost use Rattle.witness_text_files.specs.Examples.{AFile, Lacks, NoJson, answered, gate, gate_text, nested};
ghost use Rattle.witness_text_files.specs.Examples.{gate_text_without_path, gate_without_path, with_class, with_path};
ghost use Rattle.witness_text_files.specs.Examples.{with_entries, with_leg, with_legs, with_objects, with_version};
ghost use Rattle.witness_text_files.specs.Written.{data_of};

/// Each member as it must be, and otherwise.
pub fn rows_of_files()
    ensures version { map with_version (codes "1" ∷ codes "2" ∷ codes "3" ∷ codes "0" ∷ codes "1.0" ∷ codes "1e0"
        ∷ codes "-1" ∷ codes "\"1\"" ∷ codes "01" ∷ [])
        ≡ AFile ∷ Lacks Path ∷ Lacks Version ∷ Lacks Version ∷ Lacks Version ∷ Lacks Version ∷ Lacks Version
        ∷ Lacks Version ∷ NoJson ∷ [] }
    ensures class { map with_class (codes "\"\"" ∷ codes "1" ∷ codes "null" ∷ [])
        ≡ AFile ∷ Lacks Class ∷ Lacks Class ∷ [] }
    ensures entries { map with_entries (codes "[\"\",\"\"]" ∷ codes "[\"a/0\"]" ∷ codes "[\"a/0\",\"b/0\",\"c/0\"]"
        ∷ codes "[\"a/0\",1]" ∷ codes "[]" ∷ codes "\"a/0\"" ∷ [])
        ≡ AFile ∷ Lacks Entries ∷ Lacks Entries ∷ Lacks Entries ∷ Lacks Entries ∷ Lacks Entries ∷ [] }
    ensures path { map (with_path (codes "2")) (codes "\"this.c\"" ∷ codes "\"\"" ∷ codes "1" ∷ codes "null" ∷ [])
        ≡ AFile ∷ AFile ∷ Lacks Path ∷ Lacks Path ∷ [] }
    ensures further_path { map (with_path (codes "1")) (codes "\"this.c\"" ∷ codes "1" ∷ []) ≡ AFile ∷ AFile ∷ [] }
    ensures objects { map with_objects (codes "[\"this.a\",\"\"]" ∷ codes "[\"this.a\",1]" ∷ codes "{}" ∷ [])
        ≡ AFile ∷ Lacks Objects ∷ Lacks Objects ∷ [] }
    ensures legs { map with_legs (codes "[]" ∷ codes "[{},{}]" ∷ codes "null" ∷ [])
        ≡ Lacks Legs ∷ Lacks Legs ∷ Lacks Legs ∷ [] }
    ensures steps { map (λ steps. with_leg steps (codes "0") (codes "\"\"")) (codes "0" ∷ codes "65536" ∷ codes "65537"
        ∷ codes "3.0" ∷ codes "-0" ∷ codes "\"3\"" ∷ [])
        ≡ AFile ∷ AFile ∷ Lacks Legs ∷ Lacks Legs ∷ Lacks Legs ∷ Lacks Legs ∷ [] }
    ensures thread { map (λ thread. with_leg (codes "3") thread (codes "\"\"")) (codes "0" ∷ codes "1" ∷ codes "2" ∷ [])
        ≡ AFile ∷ Lacks Legs ∷ Lacks Legs ∷ [] }
    ensures turns { map (with_leg (codes "3") (codes "0")) (codes "\"LLR\"" ∷ codes "\"L-R\"" ∷ codes "\"l\""
        ∷ codes "[]" ∷ [])
        ≡ AFile ∷ Lacks Legs ∷ Lacks Legs ∷ Lacks Legs ∷ [] }
{}

/// Members that are missing, in the order in which they are asked for, a key that comes twice, and depth.
pub fn rows_of_texts()
    ensures missing { map answered (codes "[]" ∷ codes "{\"class\":\"A\"}" ∷ codes "{\"version\":1}"
        ∷ codes "{\"version\":1,\"class\":\"A\"}"
        ∷ codes "{\"version\":1,\"class\":\"A\",\"entries\":[\"a/0\",\"b/0\"]}"
        ∷ codes "{\"version\":2,\"class\":\"A\",\"entries\":[\"a/0\",\"b/0\"]}"
        ∷ codes "{\"version\":1,\"class\":\"A\",\"entries\":[\"a/0\",\"b/0\"],\"objects\":[]}" ∷ [])
        ≡ Lacks Version ∷ Lacks Version ∷ Lacks Class ∷ Lacks Entries ∷ Lacks Objects ∷ Lacks Path ∷ Lacks Legs
        ∷ [] }
    ensures twice { map answered (codes "{\"version\":1,\"version\":3}" ∷ codes "{\"version\":3,\"version\":1}" ∷ [])
        ≡ Lacks Version ∷ Lacks Class ∷ [] }
    ensures nested { map answered (nested 127 ∷ nested 128 ∷ []) ≡ Lacks Version ∷ NoJson ∷ [] }
    ensures behind { answered (codes "{} {}") ≡ NoJson }
{}

/// A file that is read, and written again, with its path and without.
pub fn gate_row()
    ensures read { option_map file_of (read gate_text) ≡ Some (Read gate) }
    ensures written { compact_text (data_of gate) ≡ gate_text }
    ensures without { option_map file_of (read gate_text_without_path) ≡ Some (Read gate_without_path) }
    ensures without_written { compact_text (data_of gate_without_path) ≡ gate_text_without_path }
{}

/// The compact text of a witness file is read as that file, whatever it says. A text that is written is in UTF-8.
pub fn written_files_are_read()
    ensures { (f : WitnessFile) → IsUtf8 (compact_text (data_of (seen f))) →
        IsFile (compact_text (data_of (seen f))) f }
{}
