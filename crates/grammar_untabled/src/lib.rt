// Laws of the check that is lent no table, `check_file::check_untabled`: no function stands here.
#![tactic(auto)]
