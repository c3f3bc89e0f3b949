//! Worked runs, which the definitions compute: of each a script, an order of steps and the report.
ghost use Rattle.crl_protocol.specs.Chosen.{always_first};
ghost use Rattle.crl_protocol.specs.Worked.Words.{Gives, TwoAreTold};
ghost use Rattle.crl_protocol.specs.Worked.Copies.{write_elsewhere_script, write_elsewhere_report, nested_reads_script, nested_reads_report, nested_reads_order, early_recall_script, early_recall_report, early_recall_order, stale_recall_script, stale_recall_report, stale_recall_order, recall_before_map_script, recall_before_map_report, recall_before_map_order, ask_before_return_script, ask_before_return_report, ask_before_return_order, flush_then_read_script, flush_then_read_report, flush_then_read_order};
ghost use Rattle.crl_protocol.specs.Worked.Upgrades.{two_upgrades_script, two_upgrades_report, downgrade_script, downgrade_report, return_before_release_script, return_before_release_report, return_before_release_order};
ghost use Rattle.crl_protocol.specs.Worked.Caches.{eviction_script, eviction_report, no_cache_script, no_cache_report, roomy_cache_script, roomy_cache_report};
ghost use Rattle.crl_protocol.specs.Worked.Deletes.{delete_of_cached_script, delete_of_cached_report, delete_of_mapped_script, delete_of_mapped_report, purge_before_answer_script, purge_before_answer_report, purge_before_answer_order, delete_before_map_script, delete_before_map_report, delete_by_another_script, delete_by_another_report, delete_among_three_script, delete_among_three_report};
ghost use Rattle.crl_protocol.specs.Worked.Rounds.{map_before_create_script, map_before_create_report, map_before_create_order, barrier_then_read_script, barrier_then_read_report, mixed_kinds_script, mixed_kinds_report, broadcast_script, broadcast_report, additions_script, additions_report};
ghost use Rattle.crl_protocol.specs.Worked.Refusals.{section_rules_script, section_rules_report, names_and_sizes_script, names_and_sizes_report, unreal_names_script, unreal_names_report};
ghost use Rattle.crl_protocol.specs.Worked.Blocked.{reader_blocks_script, reader_blocks_report, absent_node_script, absent_node_report, each_other_script, each_other_report, two_readers_block_script, two_readers_block_report};

/// Copies that go back and forth, with messages that overtake each other.
pub fn copies()
    ensures write_elsewhere { Gives 2 16 write_elsewhere_script always_first write_elsewhere_report }
    ensures nested_reads { Gives 2 16 nested_reads_script nested_reads_order nested_reads_report }
    ensures early_recall { Gives 2 16 early_recall_script early_recall_order early_recall_report }
    ensures stale_recall { Gives 2 0 stale_recall_script stale_recall_order stale_recall_report }
    ensures recall_before_map { Gives 2 16 recall_before_map_script recall_before_map_order recall_before_map_report }
    ensures ask_before_return { Gives 2 16 ask_before_return_script ask_before_return_order ask_before_return_report }
    ensures flush_then_read { Gives 2 16 flush_then_read_script flush_then_read_order flush_then_read_report }
{}

/// Copies that change their kind.
pub fn upgrades()
    ensures two_upgrades { Gives 3 16 two_upgrades_script always_first two_upgrades_report }
    ensures downgrade { Gives 2 16 downgrade_script always_first downgrade_report }
    ensures return_before_release { Gives 2 16 return_before_release_script return_before_release_order return_before_release_report }
{}

/// Regions that are unmapped, and the cache.
pub fn caches()
    ensures eviction { Gives 2 1 eviction_script always_first eviction_report }
    ensures no_cache { Gives 2 0 no_cache_script always_first no_cache_report }
    ensures roomy_cache { Gives 2 16 roomy_cache_script always_first roomy_cache_report }
{}

/// Deletes.
pub fn deletes()
    ensures delete_of_cached { Gives 2 16 delete_of_cached_script always_first delete_of_cached_report }
    ensures delete_of_mapped { Gives 2 16 delete_of_mapped_script always_first delete_of_mapped_report }
    ensures purge_before_answer { Gives 2 16 purge_before_answer_script purge_before_answer_order purge_before_answer_report }
    ensures delete_before_map { Gives 2 16 delete_before_map_script always_first delete_before_map_report }
    ensures delete_by_another { Gives 2 16 delete_by_another_script always_first delete_by_another_report }
    ensures delete_among_three { Gives 3 16 delete_among_three_script always_first delete_among_three_report }
{}

/// Maps, rounds and changes.
pub fn rounds()
    ensures map_before_create { Gives 2 16 map_before_create_script map_before_create_order map_before_create_report }
    ensures barrier_then_read { Gives 2 16 barrier_then_read_script always_first barrier_then_read_report }
    ensures mixed_kinds { Gives 2 16 mixed_kinds_script always_first mixed_kinds_report }
    ensures broadcast { Gives 2 16 broadcast_script always_first broadcast_report }
    ensures additions { Gives 1 16 additions_script always_first additions_report }
{}

/// Calls that are refused.
pub fn refusals()
    ensures section_rules { Gives 1 16 section_rules_script always_first section_rules_report }
    ensures names_and_sizes { Gives 1 16 names_and_sizes_script always_first names_and_sizes_report }
    ensures unreal_names { Gives 2 16 unreal_names_script always_first unreal_names_report }
{}

/// Runs that end with nodes that wait.
pub fn blocked()
    ensures reader_blocks { Gives 2 16 reader_blocks_script always_first reader_blocks_report }
    ensures absent_node { Gives 2 16 absent_node_script always_first absent_node_report }
    ensures each_other { Gives 2 16 each_other_script always_first each_other_report }
    ensures two_readers_block { Gives 3 16 two_readers_block_script always_first two_readers_block_report }
{}

/// Of a run in which a node maps, deletes and unmaps a region of another home: each node's lines in the account are
/// those of its calls with their answers, in order.
pub fn lines()
    ensures { TwoAreTold delete_by_another_script always_first 24 }
{}
