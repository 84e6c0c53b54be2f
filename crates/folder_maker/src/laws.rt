//! What the definitions say of some numbers of classes, written out.
ghost use Rattle.std.specs.Prelude.{◌≡◌, ◌++◌, ◌∷◌, [], codes, false, map, true};
ghost use Rattle.std.specs.List.{range_with_len};
ghost use Rattle.folder_maker.specs.Folders.{class_text, file_name, is_last, made_files};

/// All files of the folders of one class and of two.
pub fn folders_of_one_and_two()
    ensures one { made_files 1 ≡ (
      codes "C0000.java",
      codes "@ThreadSafe\nclass C0000 {\n  int a;\n  void set() { this.a = 1; }\n"
          ++ codes "  synchronized int get() { return this.a; }\n  int deep() { return this.a; }\n}\n",
    ) ∷ [] }
    ensures two { made_files 2 ≡ (
      codes "C0000.java",
      codes "@ThreadSafe\nclass C0000 {\n  int a;\n  C0001 next;\n  void set() { this.a = 1; }\n"
          ++ codes "  synchronized int get() { return this.a; }\n  int deep() { return this.next.deep(); }\n"
          ++ codes "  void link(C0001 n) { this.next = n; this.next.a = 2; }\n}\n",
    ) ∷ (
      codes "C0001.java",
      codes "@ThreadSafe\nclass C0001 {\n  int a;\n  void set() { this.a = 1; }\n"
          ++ codes "  synchronized int get() { return this.a; }\n  int deep() { return this.a; }\n}\n",
    ) ∷ [] }
{}

/// Of eleven classes the two with the numbers 9 and 10 end a group. Beside this the text of one that ends none, and of
/// one that ends a group and has more classes behind it.
pub fn classes_of_eleven()
    ensures last { map (is_last 11) (range_with_len 0 11)
        ≡ false ∷ false ∷ false ∷ false ∷ false ∷ false ∷ false ∷ false ∷ false ∷ true ∷ true ∷ [] }
    ensures class_8 { class_text 11 8 ≡
        codes "@ThreadSafe\nclass C0008 {\n  int a;\n  C0009 next;\n  void set() { this.a = 1; }\n"
        ++ codes "  synchronized int get() { return this.a; }\n  int deep() { return this.next.deep(); }\n"
        ++ codes "  void link(C0009 n) { this.next = n; this.next.a = 2; }\n}\n" }
    ensures class_9 { class_text 11 9 ≡
        codes "@ThreadSafe\nclass C0009 {\n  int a;\n  void set() { this.a = 1; }\n"
        ++ codes "  synchronized int get() { return this.a; }\n  int deep() { return this.a; }\n}\n" }
{}

/// The names of some files.
pub fn names_of_files()
    ensures { map file_name (0 ∷ 9 ∷ 10 ∷ 345 ∷ 799 ∷ [])
        ≡ codes "C0000.java" ∷ codes "C0009.java" ∷ codes "C0010.java" ∷ codes "C0345.java" ∷ codes "C0799.java" ∷ [] }
{}
