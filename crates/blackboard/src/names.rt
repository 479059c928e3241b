// What a line begins with: the map, the state or the image that a call is made on, or the story that it belongs to.

pub const EMPTY_WORD: &str = "empty word";

pub const FULL_WORD: &str = "full word";

pub const WORD_WITH_SLOT_0: &str = "word with slot 0";

pub const WORD_WITH_SLOT_2: &str = "word with slot 2";

pub const WORD_WITH_SLOT_10: &str = "word with slot 10";

pub const WORD_WITH_SLOTS_0_TO_62: &str = "word with slots 0 to 62";

pub const EMPTY_TREE: &str = "empty tree";

pub const FULL_TREE: &str = "full tree";

pub const TREE_WITH_SLOT_0: &str = "tree with slot 0";

pub const TREE_WITH_SLOT_70: &str = "tree with slot 70";

pub const TREE_WITH_SLOTS_0_TO_1022: &str = "tree with slots 0 to 1022";

pub const TREE_WITH_SLOTS_60_TO_67: &str = "tree with slots 60 to 67";

pub const TREE_WITH_SLOTS_0_TO_959: &str = "tree with slots 0 to 959";

pub const NO_SLOT_UNDER_SUMMARY_1: &str = "no slot under summary 1";

pub const ALL_SLOTS_UNDER_SUMMARY_32767: &str = "all slots under summary 32767";

pub const FULL_TREE_WITH_FULL_MARK_32767: &str = "full tree with full mark 32767";

pub const EMPTY_TREE_WITH_FULL_MARK_1: &str = "empty tree with full mark 1";

pub const TREE_WITH_SLOTS_0_TO_63_FULL_MARK_2: &str = "tree with slots 0 to 63, full mark 2";

pub const EMPTY_TREE_WITH_COUNT_1: &str = "empty tree with count 1";

pub const FULL_TREE_WITH_COUNT_1023: &str = "full tree with count 1023";

pub const EMPTY_THIRD: &str = "empty third level";

pub const FULL_THIRD: &str = "full third level";

pub const THIRD_WITH_SLOT_0: &str = "third level with slot 0";

pub const THIRD_WITH_SLOTS_1000_TO_1099: &str = "third level with slots 1000 to 1099";

pub const THIRD_WITH_SLOTS_0_TO_16382: &str = "third level with slots 0 to 16382";

pub const THIRD_WITH_SLOTS_0_TO_5200: &str = "third level with slots 0 to 5200";

pub const FULL_THIRD_TREE_15_UNDER_32767: &str = "full third level, tree 15 under 32767";

pub const EMPTY_THIRD_UNDER_SUMMARY_1: &str = "empty third level under summary 1";

pub const FULL_THIRD_UNDER_SUMMARY_32767: &str = "full third level under summary 32767";

pub const THIRD_WITH_SLOT_0_UNDER_NO_SUMMARY: &str = "third level with slot 0, under no summary";

pub const FULL_THIRD_TREE_15_WITH_FULL_MARK_32767: &str =
    "full third level, tree 15 with full mark 32767";

pub const EMPTY_THIRD_TREE_0_WITH_FULL_MARK_1: &str = "empty third level, tree 0 with full mark 1";

pub const THIRD_WITH_SLOTS_960_TO_1023_MARKED_IN_TREE_1: &str =
    "third level with slots 960 to 1023, marked in tree 1";

pub const EMPTY_THIRD_TREE_15_WITH_COUNT_1: &str = "empty third level, tree 15 with count 1";

pub const FULL_THIRD_TREE_0_WITH_COUNT_1023: &str = "full third level, tree 0 with count 1023";

pub const THIRD_WITH_SLOTS_1000_TO_1099_COUNTS_EXCHANGED: &str =
    "third level with slots 1000 to 1099, counts exchanged";

pub const EMPTY_JOBS: &str = "empty jobs";

pub const JOBS_ALL_RUNNING: &str = "jobs with all slots running";

pub const JOBS_ALL_REAPED: &str = "jobs with all slots reaped";

pub const JOBS_WITH_SLOT_0_REAPED: &str = "jobs with slot 0 reaped";

pub const JOBS_WITH_SLOTS_0_TO_1022_RUNNING: &str = "jobs with slots 0 to 1022 running";

pub const JOBS_WITH_SLOTS_60_TO_67_RUNNING: &str = "jobs with slots 60 to 67 running";

pub const JOBS_WITH_SLOTS_60_TO_67_REAPED: &str = "jobs with slots 60 to 67 reaped";

pub const JOBS_WITH_SLOTS_60_TO_67_OF_WHICH_62_TO_65_REAPED: &str =
    "jobs with slots 60 to 67, of which 62 to 65 reaped";

pub const JOBS_WITH_NO_SLOT_UNDER_SUMMARY_1: &str = "jobs with no slot under summary 1";

pub const JOBS_WITH_SLOT_0_RUNNING_UNDER_NO_SUMMARY: &str =
    "jobs with slot 0 running, under no summary";

pub const JOBS_ALL_REAPED_UNDER_SUMMARY_32767: &str =
    "jobs with all slots reaped under summary 32767";

pub const JOBS_ALL_REAPED_WITH_FULL_MARK_32767: &str =
    "jobs with all slots reaped and full mark 32767";

pub const JOBS_WITH_SLOT_0_RUNNING_AND_COUNT_0: &str = "jobs with slot 0 running and count 0";

pub const JOBS_WITH_SLOT_0_REAPED_AND_NOT_USED: &str = "jobs with slot 0 reaped and not used";

pub const JOBS_WITH_SLOT_1023_REAPED_AND_NOT_USED: &str =
    "jobs with slots 0 to 1022 running, 1023 reaped and not used";

pub const A_SECOND_FREE: &str = "a second free";

pub const A_FREE_OF_NO_ENTRIES: &str = "a free of no entries";

pub const A_FREE_AT_REAPING: &str = "a free at reaping";

pub const THE_SAME_DAY_WITH_JOBS: &str = "the same day with jobs";

pub const THE_SHORTCUTS: &str = "the shortcuts";

pub const A_MARK_THAT_IS_CLEARED: &str = "a mark that is cleared";

pub const A_MARK_THAT_STAYS: &str = "a mark that stays";

pub const FREE_THEN_TAKE: &str = "free, then take";

pub const TAKE_THEN_FREE: &str = "take, then free";

pub const TREE_WITH_SLOT_1023: &str = "tree with slot 1023";

pub const RECORD_OF_DOCUMENT_01: &str = "record of document 01";

pub const EMPTY_IMAGE: &str = "empty image";

pub const FULL_IMAGE: &str = "full image";

pub const IMAGE_WITH_SLOT_0: &str = "image with slot 0";

pub const IMAGE_WITH_SLOT_1023: &str = "image with slot 1023";

pub const IMAGE_WITH_SLOT_0_FIELDS_EXCHANGED: &str = "image with slot 0, fields exchanged";

pub const IMAGE_WITH_SLOT_0_UNDER_NO_SUMMARY: &str = "image with slot 0 under no summary";

pub const IMAGE_WITH_SLOT_0_BYTE_0_AS_33: &str = "image with slot 0, byte 0 as 33";

pub const IMAGE_WITH_SLOT_0_UNDER_NO_SUMMARY_BYTE_0_AS_33: &str =
    "image with slot 0 under no summary, byte 0 as 33";

pub const TREE_WITH_EVEN_SLOTS: &str = "tree with the even slots";

pub const TREE_WITH_ODD_SLOTS: &str = "tree with the odd slots";

pub const TREE_WITHOUT_SLOT_0: &str = "tree without slot 0";

pub const TREE_WITHOUT_SLOTS_60_TO_67: &str = "tree without slots 60 to 67";

pub const TREE_WITH_SLOTS_64_TO_127: &str = "tree with slots 64 to 127";

pub const TREE_WITHOUT_SLOTS_100_TO_199_400_TO_499: &str =
    "tree without slots 100 to 199, 400 to 499";

pub const TREE_WITHOUT_SLOTS_100_TO_199_400_TO_500: &str =
    "tree without slots 100 to 199, 400 to 500";

pub const TREE_WITH_SEVEN_GAPS: &str = "tree with seven gaps";
